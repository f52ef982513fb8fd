use fault_history::Note;

/// Who prints: it is handed each scan once all three legs have made a note of it.
pub trait Printer {
    ghost use Rattle.std.specs.Prelude.{ℕ};
    ghost use Rattle.tri_base.specs.declared.leg.Triple.{Triple};
    ghost use Rattle.fault_history.specs.Notes.{NoteData, note_data};

    /// How the notes that the legs A, B and C made of a scan change it. Scans count from 1.
    ghost After: { Self → ℕ → Triple NoteData → Self → Type 0 };

    /// Prints the notes that the legs A, B and C made of a scan.
    fn scan(&mut self, scan: u32, a: &Note, b: &Note, c: &Note)
        ensures { After self.old scan
            (record { a = note_data a.now; b = note_data b.now; c = note_data c.now }) self.new };
}
