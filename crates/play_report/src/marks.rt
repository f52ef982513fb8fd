ghost use Rattle.std.specs.Prelude.{◌≡◌, ◌<◌, ◌+◌, [], ◌∷◌, ◌++◌, filter, length, IfOk, OnOk};
ghost use Rattle.tri_base.specs.declared.leg.Triple.{Triple};
ghost use Rattle.chassis.specs.Points.{inputs_of};
ghost use Rattle.play_report.specs.Marks.{is_mark, is_marked, marks_of, with_legs};
ghost use Rattle.play_report.specs.Tables.{HaveInputs, tables_in};

use engine_face::Engine;
use leg_core::LegRun;
use std::alloc::Global;
use tri_base::{Leg, NoMemory, Triple};

/// What is marked at the inputs: the place of each input among the inputs, counted from 0, and the
/// leg.
pub(crate) fn mark_list<E: Engine>(
    alloc: Global,
    inputs: usize,
    legs: &Triple<LegRun<E>>,
) -> Result<Vec<(usize, Leg)>, NoMemory>
    requires { HaveInputs inputs legs.now }
    ensures { IfOk result (λ marks. marks.items ≡ marks_of inputs (tables_in legs.now)) }
{
    let mut marks = Vec::new(alloc);
    for input in 0..inputs {
        push_marks(&mut marks, legs, input)?;
    }
    Ok(marks)
}

/// Adds the marks at an input.
fn push_marks<E: Engine>(
    marks: &mut Vec<(usize, Leg)>,
    legs: &Triple<LegRun<E>>,
    input: usize,
) -> Result<(), NoMemory>
    requires { HaveInputs (input + 1) legs.now }
    ensures { OnOk result (marks.new.items ≡ marks.old.items
        ++ filter (is_marked (tables_in legs.now)) (with_legs input)) }
{
    push_mark(marks, legs, input, Leg::A)?;
    push_mark(marks, legs, input, Leg::B)?;
    push_mark(marks, legs, input, Leg::C)
}

/// Adds a leg's mark at an input, where there is one.
fn push_mark<E: Engine>(
    marks: &mut Vec<(usize, Leg)>,
    legs: &Triple<LegRun<E>>,
    input: usize,
    leg: Leg,
) -> Result<(), NoMemory>
    requires { HaveInputs (input + 1) legs.now }
    ensures { OnOk result (marks.new.items ≡ marks.old.items
        ++ filter (is_marked (tables_in legs.now)) ((input, leg) ∷ [])) }
{
    if is_marked(legs, input, leg) {
        marks.push((input, leg))?;
    }
    Ok(())
}

/// Whether the table of some leg marks a leg at an input.
fn is_marked<E: Engine>(legs: &Triple<LegRun<E>>, input: usize, leg: Leg) -> bool
    requires { HaveInputs (input + 1) legs.now }
    ensures { result ≡ is_marked (tables_in legs.now) (input, leg) }
{
    is_mark(&legs.a, input, leg) || is_mark(&legs.b, input, leg) || is_mark(&legs.c, input, leg)
}

/// Whether a leg's table marks a leg at an input.
fn is_mark<E: Engine>(run: &LegRun<E>, input: usize, leg: Leg) -> bool
    requires { input < length (inputs_of run.now.points) }
    ensures { result ≡ is_mark run.now.marks (input, leg) }
{
    run.marked(leg, input)
}
