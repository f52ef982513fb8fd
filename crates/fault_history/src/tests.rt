use crate::{Alarms, Ending, Entry, History, Note, Verdict, alarms_of};
use std::alloc::Global;
use std::test::Fail;
use tri_base::{Judged, Leg, NoMemory, Words};

fn words_of(alloc: Global, items: &[i64]) -> Result<Words, NoMemory> {
    let mut words = Words::new(alloc);
    words.reserve(items.len())?;
    words.extend(items);
    Ok(words)
}

/// The note of a leg that agrees and drives these values.
fn agreeing(alloc: Global, drive: &[i64]) -> Result<Note, NoMemory> {
    let mut note = Note::blank(alloc);
    note.judged = Judged::Agrees;
    note.drive = Some(words_of(alloc, drive)?);
    Ok(note)
}

#[test]
fn a_history_keeps_the_last_64_that_tell_of_a_fault(rt: HostRuntime) -> Result<(), Fail> {
    let mut history = History::new(rt.alloc())?;
    let told = [
        Judged::Agrees,
        Judged::Accuses(Leg::B),
        Judged::Minority,
        Judged::NoVote,
        Judged::Waiting,
        Judged::Learned(3),
        Judged::Ready,
        Judged::Rejected,
    ];
    for judged in told {
        history.note(1, Leg::C, judged);
    }
    assert_eq!(rt; history.len(), 5);
    for (place, judged) in [
        (0, Judged::Accuses(Leg::B)),
        (1, Judged::Minority),
        (2, Judged::NoVote),
        (3, Judged::Ready),
        (4, Judged::Rejected),
    ] {
        let entry = Entry {
            scan: 1,
            leg: Leg::C,
            judged,
        };
        assert_eq!(rt; history.at(place), Some(entry), "{place}");
    }
    for scan in 2..66 {
        history.note(scan, Leg::A, Judged::NoVote);
    }
    assert_eq!(rt; history.len(), 64);
    for (place, scan) in [(0, Some(2)), (63, Some(65)), (64, None)] {
        assert_eq!(rt; history.at(place).map(|entry| entry.scan), scan, "{place}");
    }
    Ok(())
}

#[test]
fn alarms_tell_of_the_three_notes(rt: HostRuntime) -> Result<(), Fail> {
    let alloc = rt.alloc();
    let out = words_of(alloc, &[1, -7])?;
    let mut a = agreeing(alloc, &[1, -7])?;
    let mut b = agreeing(alloc, &[1, -7])?;
    let mut c = agreeing(alloc, &[1, -7])?;
    let calm = Alarms {
        mp: false,
        input: false,
        output: false,
        arith: false,
    };
    assert_eq!(rt; alarms_of(&a, &b, &c, &out), calm);
    a.judged = Judged::Accuses(Leg::C);
    assert_eq!(rt; alarms_of(&a, &b, &c, &out), Alarms { mp: true, ..calm });
    a.judged = Judged::Agrees;
    b.marked = true;
    assert_eq!(rt;
        alarms_of(&a, &b, &c, &out),
        Alarms {
            input: true,
            ..calm
        }
    );
    b.marked = false;
    c.arith = true;
    assert_eq!(rt; alarms_of(&a, &b, &c, &out), calm);
    a.arith = true;
    assert_eq!(rt;
        alarms_of(&a, &b, &c, &out),
        Alarms {
            arith: true,
            ..calm
        }
    );
    a.arith = false;
    for drive in [None, Some([0, -7].as_slice()), Some([1, -7, 0].as_slice())] {
        c.drive = match drive {
            None => None,
            Some(items) => Some(words_of(alloc, items)?),
        };
        assert_eq!(rt;
            alarms_of(&a, &b, &c, &out),
            Alarms {
                output: true,
                ..calm
            }
        );
    }
    Ok(())
}

#[test]
fn an_ending_lends_the_words(rt: HostRuntime) -> Result<(), Fail> {
    let words = words_of(rt.alloc(), &[5])?;
    match (Ending::Run {
        epoch: 2,
        turn: 0,
        words: &words,
    }) {
        Ending::Run { epoch, turn, words } => {
            assert_eq!(rt; (epoch, turn), (2, 0));
            assert_eq!(rt; words.items(), [5].as_slice());
        }
        Ending::Learn { windows } => assert_eq!(rt; windows, 0),
    }
    assert_eq!(rt; Note::blank(rt.alloc()).verdict, None);
    Ok(())
}
