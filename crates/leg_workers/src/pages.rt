//! What is printed of the rounds in which three legs are heard.

ghost use Rattle.std.specs.Prelude.{option_map};
ghost use Rattle.fault_history.specs.Notes.{note_data};
ghost use Rattle.leg_workers.specs.Inner.Hearing.{PrintsBy, may_print, row_from};

use crate::printer::Printer;
use fault_history::Note;
use tri_base::Triple;

/// How many scans were printed, how many the play has, and whether more may be printed: up to the
/// first round in which a leg gave no note.
#[derive(Clone, Copy)]
pub(crate) struct Page {
    pub(crate) scan: u32,
    pub(crate) scans: u32,
    pub(crate) is_open: bool,
}

impl Page {
    /// Hands a round to the printer, where each leg gave a note in it and in each round before.
    pub(crate) fn print<P: Printer>(&mut self, printer: &mut P, round: &Triple<Option<Note>>)
        ensures { PrintsBy P.After self.old
            (row_from (option_map note_data round.now.a) (option_map note_data round.now.b)
            (option_map note_data round.now.c))
            (may_print self.old) self.new printer.old printer.new }
    {
        let (Some(a), Some(b), Some(c)) = (&round.a, &round.b, &round.c) else {
            self.is_open = false;
            return;
        };
        if self.is_open && self.scan < self.scans {
            self.scan += 1;
            printer.scan(self.scan, a, b, c);
        } else {
            self.is_open = false;
        }
    }
}
