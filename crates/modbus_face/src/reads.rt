ghost use Rattle.std.specs.Prelude.{◌≡◌, ◌++◌, IfOk, OnOk, Some, slice_get};
ghost use Rattle.modbus_face.specs.Reads.{data_of, is_discrete, kind_read, limit_of, same_kind, seen_of};
ghost use Rattle.modbus_face.specs.Inner.Sides.{same_side, side_values, value_at};

use crate::data::{push_bits, push_registers};
use chassis::is_input;
use std::alloc::Global;
use tri_base::{NoMemory, Point, PointKind, Text, Words, push_word};

/// The kind of the points that a function code reads; None where it reads none.
pub fn kind_read(function: u8) -> Option<PointKind>
    ensures { result ≡ kind_read function }
{
    match function {
        1 => Some(PointKind::Do),
        2 => Some(PointKind::Di),
        3 => Some(PointKind::Ao),
        4 => Some(PointKind::Ai),
        _ => None,
    }
}

/// Whether points of a kind are read as bits; all others are read as registers.
fn is_discrete(kind: PointKind) -> bool
    ensures { result ≡ is_discrete kind }
{
    matches!(kind, PointKind::Di | PointKind::Do)
}

/// How many points of a kind one request may read at most.
pub fn limit_of(kind: PointKind) -> usize
    ensures { result ≡ limit_of (Some kind) }
{
    if is_discrete(kind) { 2_000 } else { 125 }
}

/// Adds values of points of a kind as data.
pub fn push_data(text: &mut Text, kind: PointKind, values: &[i64]) -> Result<(), NoMemory>
    ensures { OnOk result (text.new.list ≡ text.old.list ++ data_of (Some kind) values.now) }
{
    if is_discrete(kind) {
        push_bits(text, values)
    } else {
        push_registers(text, values)
    }
}

/// The values that a request sees of the points of a kind, by address.
pub fn seen(
    alloc: Global,
    kind: PointKind,
    points: &[Point],
    inputs: &Words,
    outputs: &Words,
) -> Result<Words, NoMemory>
    ensures { IfOk result
        (λ seen. seen.list ≡ seen_of (Some kind) points.now inputs.now.list outputs.now.list) }
{
    let values = if is_input(kind) { inputs } else { outputs };
    values_at(alloc, kind, points, values.items())
}

/// The values at the points of a kind, of values that stand beside the points of its direction.
fn values_at(
    alloc: Global,
    kind: PointKind,
    points: &[Point],
    values: &[i64],
) -> Result<Words, NoMemory>
    ensures { IfOk result (λ seen. seen.list ≡ side_values kind points.now values.now) }
{
    let mut seen = Words::new(alloc);
    let mut place = 0;
    for point in points {
        if same_side(kind, point.kind) {
            push_at(&mut seen, kind, point, value_of(values, place))?;
            place += 1;
        }
    }
    Ok(seen)
}

/// Whether two kinds are of inputs both, or of outputs both.
fn same_side(a: PointKind, b: PointKind) -> bool
    ensures { result ≡ same_side a b }
{
    is_input(a) == is_input(b)
}

/// The value at a place, if there is one.
fn value_of(values: &[i64], place: usize) -> Option<i64>
    ensures { result ≡ slice_get values.now place }
{
    values.get(place).copied()
}

/// Adds the value at a point of the kind; nothing at any other, and where there is no value.
fn push_at(
    seen: &mut Words,
    kind: PointKind,
    point: &Point,
    value: Option<i64>,
) -> Result<(), NoMemory>
    ensures { OnOk result (seen.new.list ≡ seen.old.list
        ++ value_at kind point.now value) }
{
    match value {
        Some(value) if same_kind(kind, point.kind) => push_word(seen, value),
        _ => Ok(()),
    }
}

/// Whether two kinds are the same.
fn same_kind(a: PointKind, b: PointKind) -> bool
    ensures { result ≡ same_kind a b }
{
    a == b
}
