use super::*;
use std::alloc::Global;
use std::test::Fail;
use tri_base::{Name, Point, PointKind};

fn point(name: &[u8], kind: PointKind, low: i64, high: i64, tolerance: i64) -> Option<Point> {
    let name = Name::read(name)?;
    Some(Point {
        name,
        kind,
        low,
        high,
        tolerance,
    })
}

#[test]
fn points_are_added_found_and_copied(rt: HostRuntime) -> Result<(), Fail> {
    let mut chassis = Chassis::new(rt.alloc());
    for (name, kind, high) in [
        (b"START".as_slice(), PointKind::Di, 1),
        (b"LEVEL".as_slice(), PointKind::Ai, 32_767),
        (b"VALVE".as_slice(), PointKind::Ao, 1000),
    ] {
        chassis.add(point(name, kind, 0, high, 0).ok_or("name")?)?;
    }
    let copied = chassis.copy(rt.alloc())?;
    for chassis in [&chassis, &copied] {
        assert_eq!(rt; chassis.points().len(), 3);
        for (name, place) in [("level", Some(1)), ("VALVE", Some(2)), ("STOP", None)] {
            let name = Name::read(name.as_bytes()).ok_or("name")?;
            assert_eq!(rt; chassis.find(&name), place);
        }
    }
    Ok(())
}

#[test]
fn a_point_is_refused_for_its_first_fault(rt: HostRuntime) -> Result<(), Fail> {
    let mut chassis = Chassis::new(rt.alloc());
    for first in b'A'..=b'P' {
        for second in b'A'..=b'P' {
            let point = point(&[first, second], PointKind::Ai, -32_768, 0, 65_535);
            chassis.add(point.ok_or("name")?)?;
        }
    }
    let twice = ChassisFault::Twice(Name::read(b"AA").ok_or("name")?);
    let rows = [
        (
            b"AA".as_slice(),
            PointKind::Ai,
            1,
            9,
            0,
            Err(ChassisFault::BadRange),
        ),
        (b"AA".as_slice(), PointKind::Do, 0, 1, 0, Err(twice)),
        (
            b"NEW".as_slice(),
            PointKind::Di,
            0,
            1,
            0,
            Err(ChassisFault::Full),
        ),
        (
            b"NEW".as_slice(),
            PointKind::Do,
            0,
            1,
            1,
            Err(ChassisFault::BadRange),
        ),
        (
            b"NEW".as_slice(),
            PointKind::Ao,
            0,
            32_768,
            0,
            Err(ChassisFault::BadRange),
        ),
        (
            b"NEW".as_slice(),
            PointKind::Ao,
            0,
            9,
            -1,
            Err(ChassisFault::BadRange),
        ),
        (b"NEW".as_slice(), PointKind::Do, 0, 1, 0, Ok(())),
    ];
    for (name, kind, low, high, tolerance, want) in rows {
        let point = point(name, kind, low, high, tolerance).ok_or("name")?;
        assert!(rt; chassis.add(point) == want, "{kind:?} from {low} to {high}");
    }
    Ok(())
}
