use super::*;
use chassis::Chassis;
use hex::decode;
use std::alloc::Global;
use std::test::Fail;
use tri_base::{Name, Point, PointKind, Text, Words, push_word};

/// Points by name and kind, each with its value.
type Field<'f> = &'f [(&'f [u8], PointKind, i64)];

const START_AND_PUMP: Field = &[(b"START", PointKind::Di, 1), (b"PUMP", PointKind::Do, 1)];

// The discrete inputs are 1 0 1 1 0 0 1 0 0 1, the coils 1 0 1.
const PLANT: Field = &[
    (b"LEVEL", PointKind::Ai, -4),
    (b"D0", PointKind::Di, 1),
    (b"D1", PointKind::Di, 0),
    (b"D2", PointKind::Di, 1),
    (b"D3", PointKind::Di, 1),
    (b"VALVE", PointKind::Ao, -32_768),
    (b"D4", PointKind::Di, 0),
    (b"D5", PointKind::Di, 0),
    (b"D6", PointKind::Di, 1),
    (b"D7", PointKind::Di, 0),
    (b"D8", PointKind::Di, 0),
    (b"PUMP", PointKind::Do, 1),
    (b"FLOW", PointKind::Ai, 300),
    (b"FAN", PointKind::Do, 0),
    (b"HORN", PointKind::Do, 1),
    (b"D9", PointKind::Di, 1),
];

/// The line that tells in scan 1 what a request is answered.
fn line(alloc: Global, field: Field, request: &[u8]) -> Result<Text, Fail> {
    let mut chassis = Chassis::new(alloc);
    let (mut inputs, mut outputs) = (Words::new(alloc), Words::new(alloc));
    for (name, kind, value) in field {
        let name = Name::read(name).ok_or("name")?;
        let (low, high) = match kind {
            PointKind::Di | PointKind::Do => (0, 1),
            PointKind::Ai | PointKind::Ao => (-32_768, 32_767),
        };
        chassis.add(Point {
            name,
            kind: *kind,
            low,
            high,
            tolerance: 0,
        })?;
        match kind {
            PointKind::Di | PointKind::Ai => push_word(&mut inputs, *value)?,
            PointKind::Do | PointKind::Ao => push_word(&mut outputs, *value)?,
        }
    }
    let mut text = Text::new(alloc);
    write_reply_line(alloc, 1, request, &chassis, &inputs, &outputs, &mut text)?;
    Ok(text)
}

#[test]
fn requests_are_answered(rt: HostRuntime) -> Result<(), Fail> {
    let rows = [
        (
            START_AND_PUMP,
            "000100000006010200000001",
            "1 00010000000401020101\n",
        ),
        (
            START_AND_PUMP,
            "00020000000601050000FF00",
            "1 000200000003018501\n",
        ),
        (
            START_AND_PUMP,
            "000300000006010100000002",
            "1 000300000003018102\n",
        ),
        (
            START_AND_PUMP,
            "000400000006010400000000",
            "1 000400000003018403\n",
        ),
        (START_AND_PUMP, "0005000000050102", "1 NONE\n"),
        // Each function.
        (
            PLANT,
            "001000000006070100000003",
            "1 00100000000407010105\n",
        ),
        (
            PLANT,
            "00110000000607020000000A",
            "1 0011000000050702024D02\n",
        ),
        (
            PLANT,
            "001200000006070200030007",
            "1 00120000000407020149\n",
        ),
        (
            PLANT,
            "001300000006070300000001",
            "1 0013000000050703028000\n",
        ),
        (
            PLANT,
            "001400000006070400000001",
            "1 001400000005070402FFFC\n",
        ),
        (
            PLANT,
            "001500000006070400000002",
            "1 001500000007070404FFFC012C\n",
        ),
        (
            PLANT,
            "001600000006070400010001",
            "1 001600000005070402012C\n",
        ),
        // Exception 1, whatever follows the function.
        (PLANT, "0020000000020705", "1 002000000003078501\n"),
        (PLANT, "002100000006078100000001", "1 002100000003078101\n"),
        (PLANT, "002200000006070000000001", "1 002200000003078001\n"),
        // Exception 3, before exception 2.
        (PLANT, "0030000000050701000000", "1 003000000003078103\n"),
        (
            PLANT,
            "00310000000707010000000100",
            "1 003100000003078103\n",
        ),
        (PLANT, "0032000000060704FFFF007E", "1 003200000003078403\n"),
        (PLANT, "0033000000060702FFFF07D1", "1 003300000003078203\n"),
        (PLANT, "0034000000060701FFFF0000", "1 003400000003078103\n"),
        // Exception 2: the greatest counts, and the first address behind the points.
        (PLANT, "00400000000607040000007D", "1 004000000003078402\n"),
        (PLANT, "0041000000060702000007D0", "1 004100000003078202\n"),
        (PLANT, "004200000006070400020001", "1 004200000003078402\n"),
        (PLANT, "0043000000060703FFFF0001", "1 004300000003078302\n"),
        // Not framed.
        (PLANT, "", "1 NONE\n"),
        (PLANT, "00500000000107", "1 NONE\n"),
        (PLANT, "005100010006070400000001", "1 NONE\n"),
        (PLANT, "005200000007070400000001", "1 NONE\n"),
        (PLANT, "005300000106070400000001", "1 NONE\n"),
    ];
    for (field, request, want) in rows {
        let bytes = decode(rt.alloc(), request)?;
        let line = line(rt.alloc(), field, bytes.as_slice())?;
        assert_eq!(rt; line.bytes(), want.as_bytes());
    }
    Ok(())
}

#[test]
fn a_request_has_8_to_260_bytes(rt: HostRuntime) -> Result<(), Fail> {
    let alloc = rt.alloc();
    let (chassis, none) = (Chassis::new(alloc), Words::new(alloc));
    let mut reply = Text::new(alloc);
    for (count, want) in [(7, false), (8, true), (260, true), (261, false)] {
        let mut request = vec![in alloc; 0u8; count]?;
        request[4] = ((count - 6) / 256) as u8;
        request[5] = ((count - 6) % 256) as u8;
        let answered = answer(
            alloc,
            request.as_slice(),
            &chassis,
            &none,
            &none,
            &mut reply,
        )?;
        assert_eq!(rt; answered, want);
    }
    // What was there stays in front.
    assert_eq!(rt;
        reply.bytes(),
        b"\0\0\0\0\0\x03\0\x80\x01\0\0\0\0\0\x03\0\x80\x01".as_slice()
    );
    Ok(())
}
