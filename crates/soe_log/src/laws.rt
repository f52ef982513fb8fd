//! What a recorder has of a whole play, as contracts of functions that do nothing.

ghost use Rattle.std.specs.Prelude.{List};
ghost use Rattle.tri_base.specs.declared.point.Point.{Point};
ghost use Rattle.soe_log.specs.Recording.{ScanShown};
ghost use Rattle.soe_log.specs.Plays.{KeepsTheFirst, NotesOneMore, PlaysFit};

/// A recorder has the first 4,096 of all changes, and counts the others.
pub fn keeps_the_first()
    ensures { (points : List Point) (scans : List ScanShown) → KeepsTheFirst points scans }
{}

/// One scan more is noted in the recorder of the scans before it.
pub fn notes_one_more()
    ensures { (points : List Point) (scans : List ScanShown) (shown : ScanShown)
        → NotesOneMore points scans shown }
{}

/// In a play of at most 2,000 scans, `Recorder::note_scan` may be called for each.
pub fn plays_fit()
    ensures { PlaysFit }
{}
