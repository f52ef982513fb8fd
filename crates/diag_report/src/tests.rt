use crate::{write_end, write_head, write_scan, write_summary};
use chassis::Chassis;
use engine_face::{Refusal, Verdict};
use fault_history::{Ending, History, Note};
use std::alloc::Global;
use std::test::Fail;
use tri_base::{Judged, Leg, Name, NoMemory, Point, PointKind, Text, Words};

/// The words of a list.
fn words_of(alloc: Global, items: &[i64]) -> Result<Words, NoMemory> {
    let mut words = Words::new(alloc);
    words.reserve(items.len())?;
    words.extend(items);
    Ok(words)
}

/// The note of a leg that voted 1 over 100 ms, and drives 1 where it agrees or accuses.
fn noted(alloc: Global, verdict: Option<Verdict>, judged: Judged) -> Result<Note, NoMemory> {
    let mut note = Note::blank(alloc);
    note.verdict = verdict;
    note.voted.dt = 100;
    note.voted.values = words_of(alloc, &[1])?;
    note.judged = judged;
    note.drive = match judged {
        Judged::Agrees | Judged::Accuses(_) => Some(words_of(alloc, &[1])?),
        _ => None,
    };
    Ok(note)
}

/// The part of scan 7, in which the output is 1.
fn told(
    alloc: Global,
    verdicts: &[Option<Verdict>; 3],
    judged: &[Judged; 3],
) -> Result<Text, NoMemory> {
    let a = noted(alloc, verdicts[0], judged[0])?;
    let b = noted(alloc, verdicts[1], judged[1])?;
    let c = noted(alloc, verdicts[2], judged[2])?;
    let out = words_of(alloc, &[1])?;
    let mut text = Text::new(alloc);
    write_scan(alloc, 7, &Chassis::new(alloc), &a, &b, &c, &out, &mut text)?;
    Ok(text)
}

#[test]
fn scans_are_told(rt: HostRuntime) -> Result<(), Fail> {
    let name = Name::read(b"k").ok_or("k")?;
    let none = [None, None, None];
    let mixed = [
        Some(Verdict::Accepted),
        Some(Verdict::Refused(Refusal::KindChanged(name))),
        Some(Verdict::Learning),
    ];
    let rows = [
        (
            &none,
            [Judged::Agrees, Judged::Agrees, Judged::Agrees],
            b"SCAN 7\nIN 100 1\nOUT 1\nLEG A AGREES\nLEG B AGREES\nLEG C AGREES\n\
            ALARMS 0 0 0 0\n"
                .as_slice(),
        ),
        (
            &none,
            [
                Judged::Accuses(Leg::B),
                Judged::Minority,
                Judged::Accuses(Leg::A),
            ],
            b"SCAN 7\nIN 100 1\nOUT 1\nLEG A ACCUSES B\nLEG B MINORITY\nLEG C ACCUSES A\n\
            ALARMS 1 0 1 0\n",
        ),
        (
            &mixed,
            [Judged::NoVote, Judged::Accuses(Leg::C), Judged::Learned(12)],
            b"SCAN 7\nVERDICT A ACCEPTED\nVERDICT B REFUSED KIND K\nVERDICT C NONE\n\
            IN 100 1\nOUT 1\nLEG A NOVOTE\nLEG B ACCUSES C\nLEG C LEARN 12\n\
            ALARMS 1 0 1 0\n",
        ),
        (
            &none,
            [Judged::Waiting, Judged::Ready, Judged::Rejected],
            b"SCAN 7\nIN 100 1\nOUT 1\nLEG A WAITING\nLEG B READY\nLEG C REJECTED\n\
            ALARMS 1 0 1 0\n",
        ),
    ];
    for (verdicts, judged, want) in rows {
        let text = told(rt.alloc(), verdicts, &judged)?;
        assert_eq!(rt; text.bytes(), want);
    }
    Ok(())
}

#[test]
fn alarms_are_told_and_answered(rt: HostRuntime) -> Result<(), Fail> {
    let alloc = rt.alloc();
    let mut text = Text::new(alloc);
    let mut a = noted(alloc, None, Judged::Agrees)?;
    let mut b = noted(alloc, None, Judged::Agrees)?;
    let c = noted(alloc, None, Judged::Agrees)?;
    a.marked = true;
    a.arith = true;
    b.arith = true;
    let out = words_of(alloc, &[1])?;
    let chassis = Chassis::new(alloc);
    let alarms = write_scan(alloc, 1, &chassis, &a, &b, &c, &out, &mut text)?;
    assert_eq!(rt;
        [alarms.mp, alarms.input, alarms.output, alarms.arith],
        [false, true, false, true]
    );
    assert!(rt; text.bytes().ends_with(b"ALARMS 0 1 0 1\n"));
    Ok(())
}

/// Adds a point that reads or drives 0 or 1.
fn add_point(chassis: &mut Chassis, name: &[u8], kind: PointKind) -> Result<(), Fail> {
    let name = Name::read(name).ok_or("name")?;
    chassis.add(Point {
        name,
        kind,
        low: 0,
        high: 1,
        tolerance: 0,
    })?;
    Ok(())
}

#[test]
fn the_end_is_told(rt: HostRuntime) -> Result<(), Fail> {
    let alloc = rt.alloc();
    let mut chassis = Chassis::new(alloc);
    add_point(&mut chassis, b"PUMP", PointKind::Do)?;
    add_point(&mut chassis, b"START", PointKind::Di)?;
    add_point(&mut chassis, b"STOP", PointKind::Di)?;
    let mut history = History::new(alloc)?;
    history.note(3, Leg::A, Judged::Accuses(Leg::B));
    history.note(3, Leg::B, Judged::Minority);
    history.note(14, Leg::C, Judged::Ready);
    let marks = [(0, Leg::C), (1, Leg::A)];
    let words = words_of(alloc, &[7, -3])?;
    let none = words_of(alloc, &[])?;
    let a = Ending::Run {
        epoch: 1,
        turn: 2,
        words: &words,
    };
    let b = Ending::Learn { windows: 4 };
    let c = Ending::Run {
        epoch: 0,
        turn: 0,
        words: &none,
    };
    let mut text = Text::new(alloc);
    write_end(
        alloc,
        &history,
        &marks,
        &chassis,
        a,
        b,
        c,
        Some(5),
        &mut text,
    )?;
    assert_eq!(rt;
        text.bytes(),
        b"HISTORY 3\n3 A ACCUSES B\n3 B MINORITY\n14 C READY\nMARKS 2\nMARK START C\n\
        MARK STOP A\nFINAL A RUN 1 2 7 -3\nFINAL B LEARN 4\nFINAL C RUN 0 0\nCALM NO 5\nEND\n"
            .as_slice()
    );
    Ok(())
}

#[test]
fn the_head_and_the_summary_are_told(rt: HostRuntime) -> Result<(), Fail> {
    let mut text = Text::new(rt.alloc());
    write_head(&mut text)?;
    write_summary(rt.alloc(), 2000, -5, 640, None, &mut text)?;
    assert_eq!(rt;
        text.bytes(),
        b"TRICON REPORT 1\nTRICON SUMMARY 1\nSCANS 2000\nSUM -5\nALARMED 640\nCALM YES\n\
        END\n"
            .as_slice()
    );
    Ok(())
}
