ghost use Rattle.std.specs.Prelude.{◌≡◌, ◌≤◌, IfOk};

use crate::{Event, Recorder, write_events};
use chassis::Chassis;
use std::alloc::Global;
use std::test::Fail;
use tri_base::{Name, NoMemory, Point, PointKind, Text, Words};

/// A chassis and what is set in each scan.
#[derive(Clone, Copy)]
enum Play {
    /// A lamp's output before its button, and an analogue input between them: both TRUE at once.
    Lamp,
    /// A trip at high pressure, which is reset.
    Trip,
    /// Three inputs that change in each scan.
    Busy,
}

/// A chassis with these points.
fn chassis_of(alloc: Global, points: &[(&[u8], PointKind)]) -> Result<Chassis, Fail> {
    let mut chassis = Chassis::new(alloc);
    for (name, kind) in points {
        let high = match kind {
            PointKind::Di | PointKind::Do => 1,
            PointKind::Ai | PointKind::Ao => 4095,
        };
        let name = Name::read(name).ok_or("name")?;
        chassis.add(Point {
            name,
            kind: *kind,
            low: 0,
            high,
            tolerance: 0,
        })?;
    }
    Ok(chassis)
}

fn chassis(alloc: Global, play: Play) -> Result<Chassis, Fail> {
    match play {
        Play::Lamp => chassis_of(
            alloc,
            &[
                (b"LAMP", PointKind::Do),
                (b"LEVEL", PointKind::Ai),
                (b"BUTTON", PointKind::Di),
            ],
        ),
        Play::Trip => chassis_of(
            alloc,
            &[
                (b"P1", PointKind::Ai),
                (b"P2", PointKind::Ai),
                (b"RESET", PointKind::Di),
                (b"STOP", PointKind::Di),
                (b"VALVE", PointKind::Do),
                (b"PUMP", PointKind::Do),
                (b"HORN", PointKind::Do),
                (b"LAMP", PointKind::Do),
            ],
        ),
        Play::Busy => chassis_of(
            alloc,
            &[
                (b"A", PointKind::Di),
                (b"B", PointKind::Di),
                (b"C", PointKind::Di),
            ],
        ),
    }
}

/// The words of a list.
fn words_of(alloc: Global, items: &[i64]) -> Result<Words, NoMemory> {
    let mut words = Words::new(alloc);
    words.reserve(items.len())?;
    words.extend(items);
    Ok(words)
}

fn inputs(alloc: Global, play: Play, scan: u32) -> Result<Words, NoMemory> {
    match play {
        Play::Lamp => words_of(alloc, &[7, 1]),
        Play::Trip if scan < 20 => words_of(alloc, &[2000, 2000, 0, 0]),
        Play::Trip if scan < 50 => words_of(alloc, &[3500, 3500, 0, 0]),
        Play::Trip => words_of(alloc, &[2000, 2000, 1, 0]),
        Play::Busy => {
            let value = i64::from(scan % 2);
            words_of(alloc, &[value, value, value])
        }
    }
}

fn outputs(alloc: Global, play: Play, scan: u32) -> Result<Words, NoMemory> {
    match play {
        Play::Lamp => words_of(alloc, &[1]),
        Play::Trip if scan < 20 => words_of(alloc, &[1, 1, 0, 0]),
        Play::Trip if scan < 25 => words_of(alloc, &[1, 1, 1, 0]),
        Play::Trip if scan < 50 => words_of(alloc, &[0, 0, 0, 1]),
        Play::Trip => words_of(alloc, &[1, 1, 0, 0]),
        Play::Busy => Ok(Words::new(alloc)),
    }
}

/// The recorder of a play of so many scans of 100 ms.
fn recorded(alloc: Global, play: Play, chassis: &Chassis, scans: u32) -> Result<Recorder, NoMemory>
    requires { scans ≤ 2000 }
    ensures { IfOk result (λ recorder. recorder.points ≡ chassis.now) }
{
    let mut recorder = Recorder::new(alloc, chassis)?;
    for scan in 0..scans {
        let inputs = inputs(alloc, play, scan + 1)?;
        let outputs = outputs(alloc, play, scan + 1)?;
        recorder.note_scan(chassis, scan + 1, 100, &inputs, &outputs);
    }
    Ok(recorder)
}

#[test]
fn changes_are_told_once_in_the_order_of_the_chassis(rt: HostRuntime) -> Result<(), Fail> {
    let rows = [
        (
            Play::Lamp,
            3,
            None,
            b"TRICON EVENTS 1\n1 100 LAMP 1\n1 100 BUTTON 1\nLOST 0\nCALM YES\nEND\n".as_slice(),
        ),
        (
            Play::Trip,
            60,
            Some(41),
            b"TRICON EVENTS 1\n1 100 VALVE 1\n1 100 PUMP 1\n20 2000 HORN 1\n\
            25 2500 VALVE 0\n25 2500 PUMP 0\n25 2500 HORN 0\n25 2500 LAMP 1\n\
            50 5000 RESET 1\n50 5000 VALVE 1\n50 5000 PUMP 1\n50 5000 LAMP 0\n\
            LOST 0\nCALM NO 41\nEND\n",
        ),
    ];
    for (play, scans, uncalm, want) in rows {
        let chassis = chassis(rt.alloc(), play)?;
        let recorder = recorded(rt.alloc(), play, &chassis, scans)?;
        let mut text = Text::new(rt.alloc());
        write_events(rt.alloc(), &recorder, &chassis, uncalm, &mut text)?;
        assert_eq!(rt; text.bytes(), want);
    }
    Ok(())
}

#[test]
fn the_first_4096_events_are_kept(rt: HostRuntime) -> Result<(), Fail> {
    let chassis = chassis(rt.alloc(), Play::Busy)?;
    let recorder = recorded(rt.alloc(), Play::Busy, &chassis, 2000)?;
    assert_eq!(rt; recorder.events().len(), 4096);
    assert_eq!(rt; recorder.lost(), 1904);
    let last = Event {
        scan: 1366,
        time: 136_600,
        point: 0,
        value: false,
    };
    assert_eq!(rt; recorder.events().last(), Some(&last));
    Ok(())
}
