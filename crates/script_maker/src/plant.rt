ghost use Rattle.std.specs.Prelude.{◌≡◌, ◌<◌, ◌++◌, ℕ, pos, Some, OnOk, IfOk};
ghost use Rattle.tri_base.specs.Names.{name_of};
ghost use Rattle.script_maker.specs.Plants.{row_length, numbered, row_of, generated_points};

use crate::program::push_numbered;
use chassis::Chassis;
use std::alloc::Global;
use tri_base::{Name, NoMemory, Point, PointKind, Text};

/// How many points there are of each kind.
pub(crate) const ROW_LENGTH: u32 = 128;

/// The points of the generator.
pub(crate) fn make_plant(alloc: Global) -> Result<Chassis, NoMemory>
    ensures { IfOk result (λ chassis. chassis ≡ generated_points) }
{
    let mut chassis = Chassis::new(alloc);
    add_row(alloc, &mut chassis, PointKind::Di, b"D", 1, 0)?;
    add_row(alloc, &mut chassis, PointKind::Ai, b"A", 4095, 16)?;
    add_row(alloc, &mut chassis, PointKind::Do, b"Q", 1, 0)?;
    add_row(alloc, &mut chassis, PointKind::Ao, b"V", 4095, 0)?;
    Ok(chassis)
}

/// Adds a row of points, named by a letter and their numbers.
fn add_row(
    alloc: Global,
    chassis: &mut Chassis,
    kind: PointKind,
    letter: &[u8],
    high: u32,
    tolerance: u32,
) -> Result<(), NoMemory>
    requires { (i : ℕ) → i < row_length → name_of (numbered letter.now i) ≡
        Some (numbered letter.now i) }
    ensures { OnOk result (chassis.new ≡ chassis.old ++
        row_of kind letter.now (pos high) (pos tolerance)) }
{
    for number in 0..ROW_LENGTH {
        let name = make_name(alloc, letter, number)?;
        let point = make_point(kind, name, high, tolerance);
        let Ok(()) = chassis.add(point) else {
            return Err(NoMemory);
        };
    }
    Ok(())
}

/// A point that goes from 0 up to a count.
fn make_point(kind: PointKind, name: Name, high: u32, tolerance: u32) -> Point
    ensures { result ≡ record {
      name = name;
      kind = kind;
      low = pos 0;
      high = pos high;
      tolerance = pos tolerance;
    } }
{
    Point {
        name,
        kind,
        low: 0,
        high: i64::from(high),
        tolerance: i64::from(tolerance),
    }
}

/// The name of a letter and a number.
fn make_name(alloc: Global, letter: &[u8], number: u32) -> Result<Name, NoMemory>
    requires { name_of (numbered letter.now number) ≡ Some (numbered letter.now number) }
    ensures { IfOk result (λ name. name ≡ numbered letter.now number) }
{
    let mut text = Text::new(alloc);
    push_numbered(&mut text, letter, number)?;
    match Name::read(text.bytes()) {
        Some(name) => Ok(name),
        None => unreachable!(),
    }
}
