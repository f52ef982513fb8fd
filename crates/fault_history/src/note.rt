use engine_face::Verdict;
use std::alloc::Global;
use tri_base::{Judged, Voted, Words};

/// One leg's account of one scan.
#[derive(Drop)]
pub struct Note {
    /// What the leg made of the scan's download; None exactly where the scan has none.
    pub verdict: Option<Verdict>,
    /// The scan time and the values that it voted.
    pub voted: Voted,
    /// What it made of the three results, or of what it learned.
    pub judged: Judged,
    /// The words that it drives the output points with, as the script's fault lines have them: no
    /// words where a line mutes it. None where it drives none and no line says otherwise.
    pub drive: Option<Words>,
    /// Its run clamped a computed number or an index, or divided by 0; FALSE where it ran no scan.
    pub arith: bool,
    /// Its table of disagreements has a mark after the vote.
    pub marked: bool,
}

/// How a leg stands after its last scan.
#[derive(Clone, Copy)]
pub enum Ending<'a> {
    /// It runs: after so many accepted downloads, with this window next to show, and these words.
    Run {
        epoch: i64,
        turn: i64,
        words: &'a Words,
    },
    /// It learns, and has so many windows.
    Learn {
        windows: u32,
    },
}

impl Note {
    ghost use Rattle.std.specs.Prelude.{◌≡◌};
    ghost use Rattle.fault_history.specs.Notes.{note_data, no_note};

    /// The note of no scan, to stand in the place of one that was taken. It takes no memory.
    pub fn blank(alloc: Global) -> Note
        ensures { note_data result ≡ no_note }
    {
        Note {
            verdict: None,
            voted: Voted {
                dt: 0,
                values: Words::new(alloc),
            },
            judged: Judged::Waiting,
            drive: None,
            arith: false,
            marked: false,
        }
    }
}

/// Takes what may go to another thread.
fn needs_send<T: Send + Drop>(_value: T) {}

/// A note may.
fn note_is_send(note: Note) {
    needs_send(note);
}
