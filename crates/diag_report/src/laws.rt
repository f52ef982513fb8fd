//! How the report grows, as contracts of functions that do nothing.

ghost use Rattle.std.specs.Prelude.{List, ℤ};
ghost use Rattle.tri_base.specs.declared.leg.Triple.{Triple};
ghost use Rattle.fault_history.specs.Notes.{NoteData};
ghost use Rattle.diag_report.specs.Report.{ScanTold};
ghost use Rattle.diag_report.specs.ScanByScan.{AddsNotes, AddsScan, HasTheLast};
ghost use Rattle.diag_report.specs.Worked.{WorkedScans};

/// One scan more adds its part to the report, its judgements to the history, and its share to the
/// summary.
pub fn scans_add()
    ensures { (scans : List ScanTold) (told : ScanTold) → AddsScan scans told }
{}

/// One note more of each leg is one scan more that is told.
pub fn notes_add()
    ensures { (notes : Triple (List NoteData)) (outs : List (List ℤ)) (told : ScanTold)
        → AddsNotes notes outs told }
{}

/// The history of the report is the last of what the legs were judged.
pub fn history_has_the_last()
    ensures { (scans : List ScanTold) → HasTheLast scans }
{}

/// Scans worked by hand.
pub fn worked_scans()
    ensures { WorkedScans }
{}
