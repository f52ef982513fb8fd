ghost use Rattle.std.specs.Prelude.{◌≡◌, List, ℤ, option_map};
ghost use Rattle.fault_history.specs.Notes.{note_data};
ghost use Rattle.fault_history.specs.AlarmTests.{agrees, alarms_of, drives};

use crate::note::Note;
use tri_base::{Judged, Triple, Words};
use vote_discrete::vote;

/// The alarms of a scan.
#[derive(Clone, Copy, Debug, PartialEq, Eq)]
pub struct Alarms {
    /// A main processor doesn't agree with both its neighbours.
    pub mp: bool,
    /// A leg has marked an input reading that kept disagreeing.
    pub input: bool,
    /// A leg drives other values than the outputs have, or none.
    pub output: bool,
    /// At least two legs' runs clamped a computed number or an index, or divided by 0.
    pub arith: bool,
}

/// The alarms of a scan, from the three legs' notes of it and the values of the outputs.
pub fn alarms_of(a: &Note, b: &Note, c: &Note, out: &Words) -> Alarms
    ensures { result
        ≡ alarms_of (note_data a.now) (note_data b.now) (note_data c.now) out.now.list }
{
    Alarms {
        mp: !(in_agreement(a.judged) && in_agreement(b.judged) && in_agreement(c.judged)),
        input: a.marked || b.marked || c.marked,
        output: !(drives_the(out, &a.drive)
            && drives_the(out, &b.drive)
            && drives_the(out, &c.drive)),
        arith: vote(Triple {
            a: Some(a.arith),
            b: Some(b.arith),
            c: Some(c.arith),
        }),
    }
}

/// Whether a leg's result equals both its neighbours'.
fn in_agreement(judged: Judged) -> bool
    ensures { result ≡ agrees judged }
{
    matches!(judged, Judged::Agrees)
}

/// Whether a leg drives the values of the outputs.
fn drives_the(out: &Words, drive: &Option<Words>) -> bool
    ensures { result ≡ drives out.now.list (option_map (λ words. words.list) drive.now) }
{
    match drive {
        None => false,
        Some(words) => words.items() == out.items(),
    }
}
