use super::*;
use chassis::Chassis;
use std::alloc::Global;
use std::test::Fail;
use tri_base::{Name, Point, PointKind, Words};

fn words(alloc: Global, items: &[i64]) -> Result<Words, Fail> {
    let mut words = Words::new(alloc);
    words.reserve(items.len())?;
    words.extend(items);
    Ok(words)
}

fn drive(alloc: Global, items: Option<&[i64]>) -> Result<Option<Words>, Fail> {
    match items {
        Some(items) => Ok(Some(words(alloc, items)?)),
        None => Ok(None),
    }
}

// A discrete output, an input, and an analogue output from -100 to 1000.
fn chassis(alloc: Global) -> Result<Chassis, Fail> {
    let mut chassis = Chassis::new(alloc);
    for (name, kind, low, high) in [
        (b"PUMP".as_slice(), PointKind::Do, 0, 1),
        (b"LEVEL".as_slice(), PointKind::Ai, 0, 4095),
        (b"VALVE".as_slice(), PointKind::Ao, -100, 1000),
    ] {
        let name = Name::read(name).ok_or("name")?;
        chassis.add(Point {
            name,
            kind,
            low,
            high,
            tolerance: 0,
        })?;
    }
    Ok(chassis)
}

// A chassis has at most 256 outputs.
fn voted(alloc: Global, chassis: &Chassis, drives: [Option<&[i64]>; 3]) -> Result<Words, Fail> {
    let [a, b, c] = drives;
    let (a, b, c) = (drive(alloc, a)?, drive(alloc, b)?, drive(alloc, c)?);
    let mut out = Words::new(alloc);
    out.reserve(256)?;
    let _points = chassis.points();
    vote_drives(chassis, a.as_ref(), b.as_ref(), c.as_ref(), &mut out);
    Ok(out)
}

#[test]
fn drives_that_differ_or_do_not_fit_have_no_say(rt: HostRuntime) -> Result<(), Fail> {
    let alloc = rt.alloc();
    let chassis = chassis(alloc)?;
    let rows = [
        (
            [
                Some([1, 104].as_slice()),
                Some([1, 104].as_slice()),
                Some([1, 104].as_slice()),
            ],
            [1, 104],
        ),
        (
            [
                Some([0, 100].as_slice()),
                Some([0, 104].as_slice()),
                Some([1, 400].as_slice()),
            ],
            [0, 104],
        ),
        (
            [Some([1, 500].as_slice()), None, Some([1, 500].as_slice())],
            [1, 500],
        ),
        (
            [Some([1, 7].as_slice()), Some([0, -7].as_slice()), None],
            [0, 0],
        ),
        (
            [
                Some([1, 7].as_slice()),
                Some([1, 7, 1].as_slice()),
                Some([0].as_slice()),
            ],
            [1, 7],
        ),
        (
            [Some([2, -100].as_slice()), None, Some([0, -101].as_slice())],
            [0, -100],
        ),
        ([None, None, None], [0, 0]),
    ];
    for (drives, want) in rows {
        assert_eq!(rt; voted(alloc, &chassis, drives)?.items(), want.as_slice());
    }
    Ok(())
}
