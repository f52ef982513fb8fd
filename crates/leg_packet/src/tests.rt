ghost use Rattle.std.specs.Prelude.{◌≡◌, IfOk};

use crate::{OutSheet, Packet, read_in, read_out, write_in, write_learning, write_out};
use chassis::Chassis;
use std::alloc::Global;
use std::test::Fail;
use tri_base::{Name, NoMemory, Point, PointKind, Words, push_word};

fn words_of(alloc: Global, items: &[i64]) -> Result<Words, NoMemory>
    ensures { IfOk result (λ words. words.list ≡ items.now) }
{
    let mut words = Words::new(alloc);
    words.reserve(items.len())?;
    words.extend(items);
    Ok(words)
}

#[test]
fn a_running_result_is_written_and_read(rt: HostRuntime) -> Result<(), Fail> {
    let sheet = OutSheet {
        epoch: 7,
        turn: 1,
        text_length: 2,
        word_length: 70,
        window: words_of(rt.alloc(), &[1, 2, 3, 4, 5, 6, 300, -8])?,
        addresses: words_of(rt.alloc(), &[0, 69])?,
        values: words_of(rt.alloc(), &[-5, i64::MAX])?,
        outputs: words_of(rt.alloc(), &[1, 0, 400])?,
    };
    let mut packet = Packet::blank(rt.alloc())?;
    write_out(&mut packet, &sheet);
    let spelled = [
        2,
        7,
        1,
        2,
        70,
        1,
        2,
        3,
        4,
        5,
        6,
        300,
        -8,
        2,
        0,
        -5,
        69,
        i64::MAX,
        1,
        0,
        400,
    ];
    assert_eq!(rt; packet.words(), spelled.as_slice());
    let view = read_out(&packet).ok_or("no running result")?;
    assert_eq!(rt; view.epoch, 7);
    assert_eq!(rt; view.turn, 1);
    assert_eq!(rt; view.text_length, 2);
    assert_eq!(rt; view.word_length, 70);
    assert_eq!(rt; view.window, [1, 2, 3, 4, 5, 6, 300, -8].as_slice());
    assert_eq!(rt; view.pairs, [0, -5, 69, i64::MAX].as_slice());
    assert_eq!(rt; view.outputs, [1, 0, 400].as_slice());
    write_learning(&mut packet);
    assert_eq!(rt; packet.words(), [3].as_slice());
    Ok(())
}

#[test]
fn a_packet_with_a_wrong_number_is_no_running_result(rt: HostRuntime) -> Result<(), Fail> {
    let mut packet = Packet::blank(rt.alloc())?;
    // epoch, turn, the two lengths, a byte and two words, one change, one output
    let genuine = [2, 0, 0, 1, 2, 65, 10, 11, 1, 1, 99, 5];
    for (at, value, reads) in [
        (11, 6, true),
        (0, 1, false),
        (1, -1, false),
        (1, 1_000_000_000_000_000_000, true),
        (1, 1_000_000_000_000_000_001, false),
        (2, -1, false),
        (2, 1, false),
        (2, i64::MAX, false),
        (3, 16_385, false),
        (3, i64::MIN, false),
        (4, 4_097, false),
        (4, i64::MAX, false),
        (5, 256, false),
        (6, -1, true),
        (8, -1, false),
        (8, 0, true),
        (8, 2, false),
        (8, i64::MAX, false),
        (9, 2, false),
        (9, -1, false),
    ] {
        let mut words = words_of(rt.alloc(), &genuine)?;
        if at < words.len() {
            words.set(at, value);
        }
        packet.write_words(&words)?;
        assert_eq!(rt; read_out(&packet).is_some(), reads, "word {at} is {value}");
    }
    packet.clear();
    assert_eq!(rt; packet.words().len(), 0);
    Ok(())
}

fn point(name: &[u8], kind: PointKind, low: i64, high: i64) -> Option<Point> {
    let name = Name::read(name)?;
    Some(Point {
        name,
        kind,
        low,
        high,
        tolerance: 0,
    })
}

#[test]
fn readings_are_written_and_read(rt: HostRuntime) -> Result<(), Fail> {
    let mut chassis = Chassis::new(rt.alloc());
    chassis.add(point(b"START", PointKind::Di, 0, 1).ok_or("no point")?)?;
    chassis.add(point(b"PUMP", PointKind::Do, 0, 1).ok_or("no point")?)?;
    chassis.add(point(b"LEVEL", PointKind::Ai, -10, 10).ok_or("no point")?)?;
    let mut packet = Packet::blank(rt.alloc())?;
    write_in(&mut packet, 100, &words_of(rt.alloc(), &[1, -10])?);
    let view = read_in(&packet, &chassis).ok_or("no readings")?;
    assert_eq!(rt; view.dt, 100);
    assert_eq!(rt; view.values, [1, -10].as_slice());
    for (dt, level, reads) in [
        (1, 10, true),
        (10_000, 10, true),
        (10_001, 10, false),
        (0, 10, false),
        (100, 11, false),
        (100, -11, false),
    ] {
        write_in(&mut packet, dt, &words_of(rt.alloc(), &[0, level])?);
        assert_eq!(rt; read_in(&packet, &chassis).is_some(), reads, "{dt} {level}");
    }
    Ok(())
}

#[test]
fn a_packet_takes_more_words_than_a_leg_makes(rt: HostRuntime) -> Result<(), Fail> {
    let mut packet = Packet::blank(rt.alloc())?;
    for count in [8_518, 8_519, 20_000] {
        let mut words = Words::new(rt.alloc());
        words.reserve(count)?;
        for _word in 0..count {
            push_word(&mut words, -7)?;
        }
        packet.write_words(&words)?;
        assert_eq!(rt; packet.words().len(), count);
        assert_eq!(rt; packet.words()[count - 1], -7);
    }
    Ok(())
}
