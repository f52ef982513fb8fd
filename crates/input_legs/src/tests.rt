ghost use Rattle.std.specs.Prelude.{◌≡◌, length};
ghost use Rattle.chassis.specs.Points.{inputs_of};

use super::*;
use crate::shown::input_count;
use chassis::Chassis;
use leg_packet::Packet;
use std::alloc::Global;
use std::test::Fail;
use tri_base::{Leg, Name, Point, PointKind, Voted, Words};

fn words(alloc: Global, items: &[i64]) -> Result<Words, Fail> {
    let mut words = Words::new(alloc);
    words.reserve(items.len())?;
    words.extend(items);
    Ok(words)
}

fn packet(alloc: Global, items: &[i64]) -> Result<Packet, Fail> {
    let mut packet = Packet::blank(alloc)?;
    packet.write_words(&words(alloc, items)?)?;
    Ok(packet)
}

// A discrete input, an output, and an analogue input from -100 to 4095 with tolerance 16.
fn chassis(alloc: Global) -> Result<Chassis, Fail> {
    let mut chassis = Chassis::new(alloc);
    for (name, kind, low, high, tolerance) in [
        (b"START".as_slice(), PointKind::Di, 0, 1, 0),
        (b"PUMP".as_slice(), PointKind::Do, 0, 1, 0),
        (b"PRESS".as_slice(), PointKind::Ai, -100, 4095, 16),
    ] {
        let name = Name::read(name).ok_or("name")?;
        chassis.add(Point {
            name,
            kind,
            low,
            high,
            tolerance,
        })?;
    }
    Ok(chassis)
}

// A chassis has at most 256 inputs.
fn voted(alloc: Global, chassis: &Chassis, packets: [&[i64]; 3]) -> Result<Voted, Fail> {
    let [a, b, c] = packets;
    let (a, b, c) = (packet(alloc, a)?, packet(alloc, b)?, packet(alloc, c)?);
    let mut values = Words::new(alloc);
    values.reserve(256)?;
    let mut voted = Voted { dt: 7, values };
    let _points = chassis.points();
    vote_sheet(chassis, &a, &b, &c, &mut voted);
    Ok(voted)
}

#[test]
fn packets_are_voted_input_by_input_and_absent_as_a_whole(rt: HostRuntime) -> Result<(), Fail> {
    let alloc = rt.alloc();
    let chassis = chassis(alloc)?;
    let rows = [
        (
            [
                [1, 100, 1, 100].as_slice(),
                [1, 100, 1, 104].as_slice(),
                [1, 100, 1, 4000].as_slice(),
            ],
            100,
            [1, 104],
        ),
        (
            [
                [1, 50, 0, -5].as_slice(),
                [1, 51, 1, -2].as_slice(),
                [].as_slice(),
            ],
            50,
            [0, -4],
        ),
        (
            [
                [1, 10, 1, 7].as_slice(),
                [1, 30, 0, 9].as_slice(),
                [1, 20, 1, 4096].as_slice(),
            ],
            20,
            [0, 8],
        ),
        (
            [
                [1, 0, 1, 7].as_slice(),
                [1, 10_000, 1, 9].as_slice(),
                [2, 30, 1, 5].as_slice(),
            ],
            10_000,
            [1, 9],
        ),
        (
            [
                [1, 30, 1].as_slice(),
                [1, 30, 1, 5, 5].as_slice(),
                [i64::MAX].as_slice(),
            ],
            0,
            [0, 0],
        ),
    ];
    for (packets, time, values) in rows {
        let voted = voted(alloc, &chassis, packets)?;
        assert_eq!(rt; voted.dt, time);
        assert_eq!(rt; voted.values.items(), values.as_slice());
    }
    Ok(())
}

// Leg C's marks at the two inputs, where the other legs show 1 and 200 in each scan.
fn marks_of_c(alloc: Global, chassis: &Chassis, scans: &[&[i64]]) -> Result<[bool; 3], Fail> {
    let others = packet(alloc, &[1, 100, 1, 200])?;
    let mut marks = Discrepancy::new(alloc, chassis)?;
    for scan in scans {
        let c = packet(alloc, scan)?;
        marks.note(chassis, &others, &others, &c);
    }
    if input_count(chassis.points()) != 2 {
        return Ok([false; 3]);
    }
    let other = marks.marked(Leg::A, 0) || marks.marked(Leg::B, 1);
    Ok([marks.marked(Leg::C, 0), marks.marked(Leg::C, 1), other])
}

#[test]
fn the_fifth_disagreement_in_a_row_is_a_mark_that_stays(rt: HostRuntime) -> Result<(), Fail> {
    let alloc = rt.alloc();
    let chassis = chassis(alloc)?;
    let good = [1, 100, 1, 184].as_slice();
    let off = [1, 100, 0, 216].as_slice();
    let far = [1, 100, 1, 217].as_slice();
    let short = [1, 100, 1].as_slice();
    let none = [].as_slice();
    let rows = [
        ([good, off, off, off, off, good], [false, false, false]),
        ([off, off, off, off, good, off], [false, false, false]),
        ([good, off, off, off, off, off], [true, false, false]),
        ([off, off, off, off, off, good], [true, false, false]),
        ([good, far, far, far, far, far], [false, true, false]),
        ([good, short, off, none, off, short], [true, false, false]),
        ([good, none, short, none, none, none], [true, true, false]),
    ];
    for (scans, want) in rows {
        assert_eq!(rt; marks_of_c(alloc, &chassis, scans.as_slice())?, want);
    }
    Ok(())
}

#[test]
fn a_chassis_of_256_inputs_has_a_table_of_marks(rt: HostRuntime) -> Result<(), Fail> {
    let alloc = rt.alloc();
    let mut chassis = Chassis::new(alloc);
    for first in b'A'..=b'P' {
        for second in b'A'..=b'P' {
            chassis.add(Point {
                name: Name::read(&[first, second]).ok_or("name")?,
                kind: PointKind::Di,
                low: 0,
                high: 1,
                tolerance: 0,
            })?;
        }
    }
    assert_eq!(rt; chassis.points().len(), 256);
    let marks = Discrepancy::new(alloc, &chassis)?;
    assert!(rt; !marks.has_mark());
    Ok(())
}
