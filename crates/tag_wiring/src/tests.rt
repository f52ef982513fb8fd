ghost use Rattle.std.specs.Prelude.{◌≡◌, length};
ghost use Rattle.chassis.specs.Points.{inputs_of};

use crate::Wiring;
use chassis::{Chassis, is_input};
use function_blocks::Kind;
use sqlite_items::Items;
use st_tree::{Block, ExternalDeclaration, Names, PlacedName, Tree};
use st_types::check;
use std::alloc::Global;
use std::test::Fail;
use tag_layout::{Layout, lay};
use tri_base::{Name, Point, PointKind, Touched, Words};

// An analogue output and an analogue input.
fn points(alloc: Global) -> Option<Chassis> {
    let mut chassis = Chassis::new(alloc);
    for (name, kind, high) in [
        (b"VALVE".as_slice(), PointKind::Ao, 1000),
        (b"LEVEL".as_slice(), PointKind::Ai, 4095),
    ] {
        let name = Name::read(name)?;
        chassis
            .add(Point {
                name,
                kind,
                low: 0,
                high,
                tolerance: 0,
            })
            .ok()?;
    }
    Some(chassis)
}

fn placed(name: &[u8]) -> Option<PlacedName> {
    Some(PlacedName {
        name: Name::read(name)?,
        place: 0,
    })
}

/// The program `VAR_EXTERNAL LEVEL, VALVE : INT; END_VAR`.
fn program(alloc: Global) -> Option<Tree> {
    let mut more = Items::new(alloc);
    more.push(placed(b"VALVE")?).ok()?;
    let names = Names {
        first: placed(b"LEVEL")?,
        more,
    };
    let mut externals = Items::new(alloc);
    externals
        .push(ExternalDeclaration {
            names,
            declared: Kind::Int,
        })
        .ok()?;
    let mut blocks = Items::new(alloc);
    blocks.push(Block::External(externals)).ok()?;
    Some(Tree {
        name: placed(b"P")?,
        blocks,
        statements: Items::new(alloc),
    })
}

fn input_count(points: &[Point]) -> usize
    ensures { result ≡ length (inputs_of points.now) }
{
    points.iter().filter(|point| is_input(point.kind)).count()
}

/// Whether the words, the stores and the outputs are as they should be.
fn agrees(alloc: Global, chassis: &Chassis, layout: &Layout, wiring: &Wiring) -> Option<bool>
    requires { wiring.now ≡ record { points = chassis.now; tags = layout.now } }
{
    let mut touched = Touched::new(alloc, 2).ok()?;
    let mut outputs = Words::new(alloc);
    outputs.reserve(256).ok()?;
    let mut words = Words::new(alloc);
    words.reserve(2).ok()?;
    words.add(7);
    words.add(40_000);
    if input_count(chassis.points()) != 1 || layout.words() != 2 {
        return None;
    }
    wiring.set_inputs(&[500], &mut words, &mut touched);
    wiring.take_outputs(words.items(), &mut outputs);
    let set = words.items() == [500, 40_000].as_slice();
    Some(set && touched.pairs() == [(0, 7)].as_slice() && outputs.items() == [1000].as_slice())
}

#[test]
fn inputs_are_set_and_outputs_are_taken(rt: HostRuntime) -> Result<(), Fail> {
    let chassis = points(rt.alloc()).ok_or("points")?;
    let tree = program(rt.alloc()).ok_or("program")?;
    let typed = check(rt.alloc(), tree, &chassis)?;
    let layout = lay(rt.alloc(), &typed)?;
    let wiring = Wiring::of(rt.alloc(), &chassis, &layout)?;
    assert!(rt; agrees(rt.alloc(), &chassis, &layout, &wiring) == Some(true));
    Ok(())
}
