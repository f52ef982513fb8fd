ghost use Rattle.std.specs.Prelude.{◌≡◌, ◌++◌, ◌∷◌, [], IfOk, OnOk, if◌then◌else◌};
ghost use Rattle.soe_log.specs.Changes.{discrete_points, is_discrete_kind, value_of};

use chassis::is_input;
use std::alloc::Global;
use tri_base::{NoMemory, Point, PointKind, Words};

/// A discrete point of a chassis.
#[derive(Clone, Copy)]
pub struct DiscretePoint {
    /// Its place among all points.
    pub place: usize,
    /// It is an input, else an output.
    pub input: bool,
    /// The place of its word among those of the inputs, or of the outputs.
    pub word: usize,
}

/// The value of a discrete point.
pub(crate) fn value_of(point: DiscretePoint, inputs: &Words, outputs: &Words) -> bool
    ensures { result ≡ value_of inputs.now.list outputs.now.list point }
{
    let words = if point.input { inputs } else { outputs };
    match words.items().get(point.word) {
        Some(word) => *word != 0,
        None => false,
    }
}

/// Whether points of a kind are discrete.
fn is_discrete(kind: PointKind) -> bool
    ensures { result ≡ is_discrete_kind kind }
{
    matches!(kind, PointKind::Di | PointKind::Do)
}

/// The discrete points of a chassis, in its order.
pub(crate) fn discrete_points(
    alloc: Global,
    points: &[Point],
) -> Result<Vec<DiscretePoint>, NoMemory>
    ensures { IfOk result (λ found. found.items ≡ discrete_points points.now) }
{
    let mut found = Vec::new(alloc);
    let mut inputs = 0;
    let mut outputs = 0;
    for (place, point) in points.iter().enumerate() {
        let input = is_input(point.kind);
        let word = if input { inputs } else { outputs };
        push_discrete(&mut found, point.kind, DiscretePoint { place, input, word })?;
        inputs += usize::from(input);
        outputs += usize::from(!input);
    }
    Ok(found)
}

/// Adds a point where its kind is discrete.
fn push_discrete(
    found: &mut Vec<DiscretePoint>,
    kind: PointKind,
    point: DiscretePoint,
) -> Result<(), NoMemory>
    ensures { OnOk result (found.new.items
        ≡ found.old.items ++ (if is_discrete_kind kind then point ∷ [] else [])) }
{
    if is_discrete(kind) {
        found.push(point)?;
    }
    Ok(())
}
