//! The caller, who hears the notes of three legs.

ghost use Rattle.std.specs.Prelude.{option_map};
ghost use Rattle.fault_history.specs.Notes.{note_data};
ghost use Rattle.leg_workers.specs.Inner.Hearing.{Hears, HearsRound};

use fault_history::Note;
use std::sync::Wait;
use tri_base::Triple;
use tribus::{NoteOut, Told};

/// The end of the link over which a leg tells its notes, and whether that told that there are no
/// more.
#[derive(Drop)]
pub(crate) struct Listener {
    pub(crate) out: NoteOut,
    pub(crate) is_over: bool,
}

impl Listener {
    /// Hears the leg's note of its next scan; None where there are no more.
    pub(crate) fn next<R: Wait>(&mut self, rt: &R) -> Option<Note>
        ensures { Hears self.old (option_map note_data result) self.new }
    {
        if self.is_over {
            return None;
        }
        match self.out.hear(rt) {
            Told::Scan(note) => Some(note),
            Told::Over => {
                self.is_over = true;
                None
            }
        }
    }
}

/// Hears the note of its next scan of each of three legs.
pub(crate) fn hear_round<R: Wait>(rt: &R, ears: &mut Triple<Listener>) -> Triple<Option<Note>>
    ensures { HearsRound ears.old (record {
      a = option_map note_data result.a;
      b = option_map note_data result.b;
      c = option_map note_data result.c;
    }) ears.new }
{
    let a = ears.a.next(rt);
    let b = ears.b.next(rt);
    let c = ears.c.next(rt);
    Triple { a, b, c }
}
