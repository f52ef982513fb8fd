use super::*;
use chassis::ChassisFault;
use engine_face::Refusal;
use std::alloc::Global;
use std::sync::atomic::{AtomicU64, Ordering};
use std::test::Fail;
use std::thread::yield_now;
use tri_base::{Leg, Name, NoMemory, Text, TypeCause, TypeFault, push_bytes};
use tri_io::{MemorySink, MemorySource};

// A pump that counts its starts. In scan 2 its program is changed; in scan 3 the change is refused.
const SCRIPT: &str = "TRICON 1\nPOINT DI START\nPOINT DO PUMP\nPOINT AO SHOWN 0 9\nTEXT\n\
    PROGRAM P\nVAR_EXTERNAL START, PUMP : BOOL; SHOWN : INT; END_VAR\n\
    VAR N : INT; UP : R_TRIG; END_VAR\n\
    UP(CLK := START);\nIF UP.Q THEN N := N + 1; END_IF;\nPUMP := START;\nSHOWN := N * 4;\n\
    END_PROGRAM\nENDTEXT\nSCANS 3\n\
    AT 1\nSET START 1 1 0\n\
    AT 2\nSET START 0\nDOWNLOAD\n\
    PROGRAM P\nVAR_EXTERNAL PUMP : BOOL; END_VAR\nVAR COUNT : INT; END_VAR\n\
    COUNT := COUNT * 32767;\nPUMP := COUNT > 1;\nEND_PROGRAM\nENDTEXT\nRENAME N COUNT\n\
    AT 3\nDOWNLOAD\nPROGRAM P\nEND_PROGRAM;\nENDTEXT\nEND\n";

const REPORT: &str = "TRICON SOLO 1\n\
    SCAN 1\nIN 100 1\nOUT 1 4\nARITH 0\n\
    SCAN 2\nVERDICT ACCEPTED\nIN 100 0\nOUT 1 0\nARITH 0\n\
    SCAN 3\nVERDICT REFUSED SYNTAX 3\nIN 100 0\nOUT 1 0\nARITH 1\n\
    FINAL 1 1 32767\nEND\n";

// One scan, in which leg B's reading of START differs.
const ONE_SCAN: &str = "TRICON 1\nPOINT DI START\nPOINT DO PUMP\nTEXT\n\
    PROGRAM P\nVAR_EXTERNAL START, PUMP : BOOL; END_VAR\nPUMP := START;\nEND_PROGRAM\nENDTEXT\n\
    SCHEDULE AB\nSCHEDULE BACC\nSCANS 1\nAT 1\nSET START 1 0 1\nEND\n";

// What three legs report of it.
const LEGS_REPORT: &str = "TRICON REPORT 1\nSCAN 1\nIN 100 1\nOUT 1\n\
    LEG A AGREES\nLEG B AGREES\nLEG C AGREES\nALARMS 0 0 0 0\nHISTORY 0\nMARKS 0\n\
    FINAL A RUN 0 1 1 1\nFINAL B RUN 0 1 1 1\nFINAL C RUN 0 1 1 1\nCALM YES\nEND\n";

// The same where leg A puts a third packet before the second is taken.
const STUCK: &str = "TRICON 1\nPOINT DI START\nPOINT DO PUMP\nTEXT\n\
    PROGRAM P\nVAR_EXTERNAL START, PUMP : BOOL; END_VAR\nPUMP := START;\nEND_PROGRAM\nENDTEXT\n\
    SCHEDULE AABBCCAAA\nSCANS 1\nAT 1\nSET START 1 0 1\nEND\n";

// The same where leg B shows its neighbours two faces.
const TWO_FACES: &str = "TRICON 1\nPOINT DI START\nPOINT DO PUMP\nTEXT\n\
    PROGRAM P\nVAR_EXTERNAL START, PUMP : BOOL; END_VAR\nPUMP := START;\nEND_PROGRAM\nENDTEXT\n\
    SCANS 1\nAT 1\nSET START 1 0 0\nREAD B LEFT 1 100 1\nEND\n";

fn text_of(alloc: Global, bytes: &str) -> Result<Text, NoMemory> {
    let mut text = Text::new(alloc);
    push_bytes(&mut text, bytes.as_bytes())?;
    Ok(text)
}

fn words_of(alloc: Global, words: &[&str]) -> Result<Vec<Text>, Fail> {
    let mut texts = Vec::new(alloc);
    for word in words {
        texts.push(text_of(alloc, word)?)?;
    }
    Ok(texts)
}

/// How the words end, and the sink then. Source and sink move up to 16 bytes a call; the calls
/// with these numbers fail, and none has the number 0.
fn run(
    alloc: Global,
    words: &[&str],
    script: &str,
    failing: (u64, u64),
) -> Result<(Status, MemorySink), Fail> {
    let words = words_of(alloc, words)?;
    let mut source = MemorySource::new(text_of(alloc, script)?, 16, vec![in alloc; failing.0]?);
    let mut sink = MemorySink::new(alloc, 16, vec![in alloc; failing.1]?);
    sink.reserve(100_000)?;
    let status = desk(alloc, words.as_slice(), &mut source, &mut sink);
    Ok((status, sink))
}

#[test]
fn a_matrix_is_written_as_its_program(rt: HostRuntime) -> Result<(), Fail> {
    let matrix = |line, cause| Status::Refused {
        line,
        cause: RefusedCause::Matrix(cause),
    };
    let rows = [
        (
            "MATRIX 1\nCAUSE STOP LOW\nEFFECT HORN FOLLOW\nLINK STOP HORN\nEND\n",
            Status::Done,
            "PROGRAM MATRIX\nVAR_EXTERNAL\nSTOP : BOOL;\nHORN : BOOL;\nEND_VAR\n\
            HORN := FALSE OR NOT STOP;\nEND_PROGRAM\n",
        ),
        (
            "MATRIX 1\nCAUSE STOP LOW\nLINK STOP BELL\nEND\n",
            matrix(3, MatrixCause::Unknown),
            "",
        ),
    ];
    for (text, want, taken) in rows {
        let (status, sink) = run(rt.alloc(), &["matrix"], text, (0, 0))?;
        assert_eq!(rt; status, want, "{text:?}");
        assert_eq!(rt; sink.bytes(), taken.as_bytes(), "{text:?}");
    }
    Ok(())
}

#[test]
fn a_script_is_played_and_checked(rt: HostRuntime) -> Result<(), Fail> {
    let rows: [(&[&str], &str); 3] = [
        (&["solo"], REPORT),
        (
            &["solo", "summary"],
            "TRICON SUMMARY 1\nSCANS 3\nSUM 7\nEND\n",
        ),
        (
            &["check"],
            "TRICON CHECK 1\nPROGRAM 192 7 4 15\nAT 2 ACCEPTED 124 2 2 9\n\
            AT 3 REFUSED SYNTAX 3\nEND\n",
        ),
    ];
    for (words, want) in rows {
        let (status, sink) = run(rt.alloc(), words, SCRIPT, (0, 0))?;
        assert_eq!(rt; status, Status::Done, "{words:?}");
        assert_eq!(rt; sink.bytes(), want.as_bytes(), "{words:?}");
    }
    Ok(())
}

#[test]
fn three_legs_step(rt: HostRuntime) -> Result<(), Fail> {
    let rows = [
        (ONE_SCAN, Status::Done, LEGS_REPORT),
        (STUCK, Status::Stuck { index: 9 }, ""),
        (
            TWO_FACES,
            Status::DoneNotCalm { scan: 1 },
            "TRICON REPORT 1\nSCAN 1\nIN 100 1\nOUT 0\n\
            LEG A MINORITY\nLEG B ACCUSES A\nLEG C ACCUSES A\nALARMS 1 0 1 0\n\
            HISTORY 3\n1 A MINORITY\n1 B ACCUSES A\n1 C ACCUSES A\nMARKS 0\n\
            FINAL A LEARN 0\nFINAL B RUN 0 1 0 0\nFINAL C RUN 0 1 0 0\nCALM NO 1\nEND\n",
        ),
    ];
    for (text, want, taken) in rows {
        let (status, sink) = run(rt.alloc(), &["step"], text, (0, 0))?;
        assert_eq!(rt; status, want, "{text:?}");
        assert_eq!(rt; sink.bytes(), taken.as_bytes(), "{text:?}");
    }
    Ok(())
}

/// A gate that lets nobody pass before three have come, but asks at most `TURNS` times.
#[derive(Drop)]
struct Meeting {
    came_a: AtomicU64,
    came_b: AtomicU64,
    came_c: AtomicU64,
    missed: AtomicU64,
}

const TURNS: u64 = 10_000_000;

impl Meeting {
    fn new() -> Meeting {
        Meeting {
            came_a: AtomicU64::new(0),
            came_b: AtomicU64::new(0),
            came_c: AtomicU64::new(0),
            missed: AtomicU64::new(0),
        }
    }

    fn of(&self, leg: Leg) -> &AtomicU64 {
        match leg {
            Leg::A => &self.came_a,
            Leg::B => &self.came_b,
            Leg::C => &self.came_c,
        }
    }

    fn have_all_come(&self) -> bool {
        self.came_a.load(Ordering::SeqCst) > 0
            && self.came_b.load(Ordering::SeqCst) > 0
            && self.came_c.load(Ordering::SeqCst) > 0
    }
}

impl Gate for Meeting {
    fn pass(&self, leg: Leg, _scan: u32) {
        self.of(leg).fetch_add(1, Ordering::SeqCst);
        for _ in 0..TURNS {
            if self.have_all_come() {
                return;
            }
            yield_now();
        }
        self.missed.fetch_add(1, Ordering::SeqCst);
    }
}

#[test]
fn three_legs_play(rt: HostRuntime) -> Result<(), Fail> {
    let rows: [(&[&str], u64, Status, &str); 5] = [
        (&["play"], 0, Status::Done, LEGS_REPORT),
        (
            &["play"],
            3,
            Status::WriteFault,
            "TRICON REPORT 1\nSCAN 1\nIN 100 1\n",
        ),
        (
            &["play", "summary"],
            0,
            Status::Done,
            "TRICON SUMMARY 1\nSCANS 1\nSUM 1\nALARMED 0\nCALM YES\nEND\n",
        ),
        (
            &["play", "events"],
            0,
            Status::Done,
            "TRICON EVENTS 1\n1 100 START 1\n1 100 PUMP 1\nLOST 0\nCALM YES\nEND\n",
        ),
        (
            &["play", "modbus"],
            0,
            Status::Done,
            "TRICON MODBUS 1\nCALM YES\nEND\n",
        ),
    ];
    for (words, failing, want, taken) in rows {
        let gate = Meeting::new();
        let words = words_of(rt.alloc(), words)?;
        let script = text_of(rt.alloc(), ONE_SCAN)?;
        let mut source = MemorySource::new(script, 16, vec![in rt.alloc(); 0]?);
        let mut sink = MemorySink::new(rt.alloc(), 16, vec![in rt.alloc(); failing]?);
        sink.reserve(1000)?;
        let status = station(
            &rt,
            rt.alloc(),
            words.as_slice(),
            &mut source,
            &mut sink,
            &gate,
        );
        assert_eq!(rt; status, want);
        assert_eq!(rt; sink.bytes(), taken.as_bytes());
        assert_eq!(rt; gate.came_a.load(Ordering::SeqCst), 1);
        assert_eq!(rt; gate.came_b.load(Ordering::SeqCst), 1);
        assert_eq!(rt; gate.came_c.load(Ordering::SeqCst), 1);
        assert_eq!(rt; gate.missed.load(Ordering::SeqCst), 0);
    }
    Ok(())
}

#[test]
fn words_are_commands_or_none(rt: HostRuntime) -> Result<(), Fail> {
    let rows: [&[&str]; 16] = [
        &[],
        &[""],
        &["play"],
        &["Solo"],
        &["solo "],
        &["solo", "solo"],
        &["solo", "summary", "summary"],
        &["check", "summary"],
        &["step", "summary"],
        &["matrix", "summary"],
        &["make"],
        &["make", "1"],
        &["make", "-0", "1"],
        &["make", "4294967296", "1"],
        &["make", "1", "2001"],
        &["make", "1", "1", "1"],
    ];
    for words in rows {
        let (status, sink) = run(rt.alloc(), words, SCRIPT, (1, 1))?;
        assert_eq!(rt; status, Status::Usage, "{words:?}");
        assert_eq!(rt; sink.bytes(), b"".as_slice(), "{words:?}");
    }
    Ok(())
}

#[test]
fn a_script_is_made(rt: HostRuntime) -> Result<(), Fail> {
    let (status, sink) = run(rt.alloc(), &["make", "007", "1"], "", (1, 0))?;
    assert_eq!(rt; status, Status::Done);
    assert_eq!(rt; sink.bytes().starts_with(b"TRICON 1\nPOINT DI D0\n"), true);
    assert_eq!(rt;
        sink.bytes()
            .ends_with(b"ENDTEXT\nSCANS 1\nAT 1\nSET D32 0\nSET A90 3741\nEND\n"),
        true
    );
    Ok(())
}

#[test]
fn refusals_and_faults_end_a_run(rt: HostRuntime) -> Result<(), Fail> {
    let script = |line, cause| Status::Refused {
        line,
        cause: RefusedCause::Script(cause),
    };
    let rows = [
        ("", (0, 0), script(1, ScriptCause::End), ""),
        (
            "TRICON 1\nPOINT DI A 1\n",
            (0, 0),
            script(2, ScriptCause::Form),
            "",
        ),
        (
            "TRICON 1\nTEXT\nPROGRAM P END_PROGRAM END\nENDTEXT\nSCANS 1\nEND\n",
            (0, 0),
            Status::Refused {
                line: 2,
                cause: RefusedCause::Program(Refusal::Syntax { token: 3 }),
            },
            "",
        ),
        (SCRIPT, (2, 0), Status::ReadFault, ""),
        (SCRIPT, (0, 1), Status::WriteFault, ""),
        (
            SCRIPT,
            (0, 3),
            Status::WriteFault,
            "TRICON SOLO 1\nSCAN 1\nIN 100 1\nOU",
        ),
    ];
    for (text, failing, want, taken) in rows {
        let (status, sink) = run(rt.alloc(), &["solo"], text, failing)?;
        assert_eq!(rt; status, want, "{text:?} {failing:?}");
        assert_eq!(rt; sink.bytes(), taken.as_bytes(), "{text:?} {failing:?}");
    }
    Ok(())
}

#[test]
fn each_status_has_its_number_and_line(rt: HostRuntime) -> Result<(), Fail> {
    let script = |cause| Status::Refused {
        line: 40,
        cause: RefusedCause::Script(cause),
    };
    let fault = TypeFault {
        place: 59,
        cause: TypeCause::WrongType,
    };
    let program = Status::Refused {
        line: 4,
        cause: RefusedCause::Program(Refusal::Typing(fault)),
    };
    let Some(name) = Name::read(b"start") else {
        return Ok(());
    };
    for (status, number, want) in [
        (Status::Done, 0, ""),
        (
            Status::Usage,
            1,
            "usage: tricon play [summary | events | modbus] | solo [summary] | step | check \
            | matrix | make NUMBER SCANS\n",
        ),
        (script(ScriptCause::Second), 2, "refused: line 40: SECOND\n"),
        (
            script(ScriptCause::Chassis(ChassisFault::Twice(name))),
            2,
            "refused: line 40: CHASSIS TWICE START\n",
        ),
        (program, 2, "refused: line 4: PROGRAM TYPING 59 WRONGTYPE\n"),
        (Status::ReadFault, 3, "read fault\n"),
        (Status::WriteFault, 4, "write fault\n"),
        (Status::NoMemory, 5, "no memory\n"),
        (Status::DoneNotCalm { scan: 12 }, 6, "not calm at scan 12\n"),
        (Status::ScriptTooLong, 7, "script too long\n"),
        (Status::Stuck { index: 25 }, 8, "stuck at step 25\n"),
    ] {
        let mut text = Text::new(rt.alloc());
        status_line(rt.alloc(), &status, &mut text)?;
        assert_eq!(rt; text.bytes(), want.as_bytes());
        assert_eq!(rt; status.number(), number, "{want}");
    }
    Ok(())
}
