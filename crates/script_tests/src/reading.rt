use chassis::ChassisFault;
use script_text::{Script, ScriptCause, ScriptFault, Tape, read_script};
use std::alloc::Global;
use std::test::Fail;
use tri_base::{Leg, Side, Text, Words, push_bytes};

/// Reads bytes as a script; a test's are never too many.
fn read(alloc: Global, before: &[u8], bytes: &[u8]) -> Result<Script, ScriptFault> {
    let mut text = Text::new(alloc);
    if push_bytes(&mut text, before).is_err() || push_bytes(&mut text, bytes).is_err() {
        return Err(ScriptFault::NoMemory);
    }
    read_short(alloc, &text)
}

fn read_short(alloc: Global, text: &Text) -> Result<Script, ScriptFault> {
    if text.len() > 100_000 {
        return Err(ScriptFault::NoMemory);
    }
    read_script(alloc, text)
}

/// Lines before, bytes behind them, and the line and cause of their first fault.
type Case = (&'static str, &'static str, u32, ScriptCause);

// Three lines, and seven.
const POINTS: &str = "TRICON 1\nPOINT DI IN\nPOINT DO OUT\n";

const SCAN: &str = "TRICON 1\nPOINT DI IN\nPOINT DO OUT\nTEXT\nENDTEXT\nSCANS 3\nAT 2\n";

const CASES: [Case; 25] = [
    ("", "", 1, ScriptCause::End),
    ("", "tricon 1", 1, ScriptCause::Word),
    ("", "\n# A pump.\r\nTRICON 01\n", 3, ScriptCause::Form),
    (POINTS, "POINT DX P", 4, ScriptCause::Form),
    (
        POINTS,
        "POINT AI P 5 9 0",
        4,
        ScriptCause::Chassis(ChassisFault::BadRange),
    ),
    (POINTS, "SCANS 3", 4, ScriptCause::Word),
    (POINTS, "TEXT\nEND\n", 6, ScriptCause::End),
    (
        POINTS,
        "TEXT\nENDTEXT \nENDTEXT\nSCHEDULE ABD",
        7,
        ScriptCause::Form,
    ),
    (POINTS, "TEXT\nENDTEXT\nSCANS 2001", 6, ScriptCause::Range),
    (
        POINTS,
        "TEXT\nENDTEXT\nSCANS 3\nSET IN 1",
        7,
        ScriptCause::Word,
    ),
    (SCAN, "", 8, ScriptCause::End),
    (SCAN, "AT 2", 8, ScriptCause::Order),
    (SCAN, "AT 4", 8, ScriptCause::Order),
    (SCAN, "SET IN", 8, ScriptCause::Form),
    (SCAN, "SET PUMP 7", 8, ScriptCause::Point),
    (SCAN, "SET OUT 7", 8, ScriptCause::Point),
    (SCAN, "SET in 0 1 2", 8, ScriptCause::Range),
    (SCAN, "TIME 0", 8, ScriptCause::Range),
    (SCAN, "POKE A 4096 1", 8, ScriptCause::Range),
    (SCAN, "READ A 1 LEFT", 8, ScriptCause::Form),
    (SCAN, "RENAME A B", 8, ScriptCause::Word),
    (SCAN, "ASK 012", 8, ScriptCause::Form),
    (SCAN, "DOWNLOAD\nENDTEXT\nDOWNLOAD", 10, ScriptCause::Second),
    (SCAN, "DOWNLOAD\nEND\n", 10, ScriptCause::End),
    (SCAN, "END\r\n\r\n# x\nEND", 11, ScriptCause::Word),
];

/// Whether the first fault is the one of the case.
fn is_refused(alloc: Global, case: &Case) -> bool {
    let found = read(alloc, case.0.as_bytes(), case.1.as_bytes()).err();
    let fault = ScriptFault::At {
        line: case.2,
        cause: case.3,
    };
    found == Some(fault)
}

#[test]
fn a_fault_has_its_line_and_cause(rt: HostRuntime) -> Result<(), Fail> {
    for case in CASES.as_slice() {
        if !is_refused(rt.alloc(), case) {
            return Err(case.1.into());
        }
    }
    Ok(())
}

// A script with every kind of line.
const WHOLE: &[u8] = b"\t# A pump.\r\n\r\r\nTRICON\t1\n  POINT DI start \r\r\n\
    POINT AI press 0 4095 16\nPOINT DO Pump\nPOINT AO VALVE -5 5\nTEXT\t\nPROGRAM P\r\n\n# kept\n\
    \x20\
    ENDTEXT\nENDTEXT\r\nSCHEDULE ABC\nSCHEDULE CA\nSCANS 003\nAT 1\nSET start 1\nASK 0001fF\n\
    AT 2\nSET PRESS 1 02 -0\nTIME 100 110 400\nPOKE B 4095 -7\nREAD B LEFT 1 100 0\nDOWNLOAD\n\
    NEW\nENDTEXT\nMUTE C\nRENAME a B\nREPLACE B\nSWAP B\nX\nENDTEXT\nRESULT B 3\nASK 00\n\
    DRIVE B 1 2\nRENAME b c\nEND\n# END";

fn says_its_lines(script: &Script) -> bool {
    script.chassis().points().len() == 4
        && script.scans() == 3
        && script.text_line() == 8
        && script.text().bytes() == b"PROGRAM P\n\n# kept\n ENDTEXT\n".as_slice()
        && script.swap_lines() == [31].as_slice()
        && script.schedule() == [Leg::A, Leg::B, Leg::C, Leg::C, Leg::A].as_slice()
}

fn is_text(found: Option<&Text>, bytes: &[u8]) -> bool {
    match found {
        Some(text) => text.bytes() == bytes,
        None => false,
    }
}

fn says_its_scans(script: &Script) -> bool {
    script.moments().len() == 2
        && script.download(1).is_none()
        && is_text(script.download(2), b"NEW\n")
        && script.renames(2).len() == 2
        && script.asks(3).is_empty()
        && is_text(script.asks(1).first(), &[0, 1, 255])
}

#[test]
fn a_script_has_what_its_lines_say(rt: HostRuntime) -> Result<(), Fail> {
    let script = read(rt.alloc(), b"", WHOLE)?;
    assert!(rt; says_its_lines(&script));
    assert!(rt; says_its_scans(&script));
    Ok(())
}

fn are_words(found: Option<&Words>, numbers: &[i64]) -> bool {
    match found {
        Some(words) => words.items() == numbers,
        None => false,
    }
}

fn shows_settings(tape: &Tape) -> bool {
    tape.scans() == 3
        && tape.time(1) == 100
        && tape.time(3) == 110
        && tape.readings(1) == [1i16, 0].as_slice()
        && tape.readings(3) == [1i16, 2].as_slice()
}

fn shows_packets(tape: &Tape) -> bool {
    tape.scans() == 3
        && are_words(tape.shown(2, Side::Left), &[1, 100, 0])
        && tape.shown(2, Side::Right).is_none()
        && are_words(tape.result(2, Side::Right), &[3])
        && are_words(tape.drive(2), &[1, 2])
}

fn shows_the_rest(tape: &Tape) -> bool {
    tape.scans() == 3
        && tape.acts(2).len() == 3
        && is_text(tape.download(2), b"NEW\n")
        && tape.renames(2).len() == 2
        && tape.acts(3).is_empty()
}

#[test]
fn a_leg_sees_the_lines_that_name_it(rt: HostRuntime) -> Result<(), Fail> {
    let script = read(rt.alloc(), b"", WHOLE)?;
    let tape = script.tape(rt.alloc(), Leg::B)?;
    assert!(rt; shows_settings(&tape));
    assert!(rt; shows_packets(&tape));
    assert!(rt; shows_the_rest(&tape));
    Ok(())
}
