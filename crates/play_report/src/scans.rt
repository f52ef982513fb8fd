ghost use Rattle.std.specs.Prelude.{◌≡◌, ◌≤◌, [], ◌++◌, length, IfOk, OnErr, OnOk};
ghost use Rattle.std.specs.List.{fold};
ghost use Rattle.tri_base.specs.declared.leg.Triple.{Triple};
ghost use Rattle.tri_base.specs.Legs.{leg_part};
ghost use Rattle.tri_base.specs.Rows.{KeepsRoom};
ghost use Rattle.fault_history.specs.Histories.{note_of};
ghost use Rattle.fault_history.specs.Notes.{NoteData, note_data};
ghost use Rattle.diag_report.specs.Report.{history_of, judgements_at, part_at, scan_parts};
ghost use Rattle.play_report.specs.Told.{note_of_scan, told_by, told_first};

use crate::notes::{note_of_scan, vote_outputs};
use chassis::Chassis;
use diag_report::write_scan;
use engine_face::Engine;
use fault_history::{History, Note};
use leg_core::LegRun;
use std::alloc::Global;
use std::marker::Model;
use tri_base::{Leg, NoMemory, Text, Triple, Words};

// No chassis has more outputs.
const POINT_LIMIT: usize = 256;

/// What tells a play scan by scan: the history of the scans so far. It keeps room for the outputs.
#[derive(Drop)]
pub struct ScanTeller {
    history: History,
    out: Words,
}

impl Model for ScanTeller {
    ghost use Rattle.std.specs.Prelude.{List};
    ghost use Rattle.tri_base.specs.Rows.{HasRoom};
    ghost use Rattle.chassis.specs.Points.{point_limit};
    ghost use Rattle.fault_history.specs.declared.history.Entry.{Entry};

    ghost Value = { List Entry };

    ghost view = { λ t. t.history };

    ghost invariant = { λ t. HasRoom point_limit t.out };
}

impl ScanTeller {
    /// One that has told of no scan.
    pub fn new(alloc: Global) -> Result<ScanTeller, NoMemory>
        ensures { IfOk result (λ teller. teller ≡ []) }
    {
        let history = History::new(alloc)?;
        let mut out = Words::new(alloc);
        out.reserve(POINT_LIMIT)?;
        Ok(ScanTeller { history, out })
    }

    /// Adds a scan's part of the report, all of it or nothing, and its judgements to the history.
    /// Scans count from 1; `a`, `b` and `c` are the legs' notes of this one. After NoMemory it
    /// is as it was.
    pub fn tell(
        &mut self,
        alloc: Global,
        scan: u32,
        chassis: &Chassis,
        a: &Note,
        b: &Note,
        c: &Note,
        text: &mut Text,
    ) -> Result<(), NoMemory>
        ensures text { let notes : Triple NoteData =
            record { a = note_data a.now; b = note_data b.now; c = note_data c.now } in
            OnOk result (text.new.list
            ≡ text.old.list ++ part_at (scan, told_by chassis.now (leg_part notes))) }
        ensures history { let notes : Triple NoteData =
            record { a = note_data a.now; b = note_data b.now; c = note_data c.now } in
            OnOk result (self.new
            ≡ fold note_of self.old (judgements_at (scan, told_by chassis.now (leg_part notes)))) }
        ensures room { KeepsRoom text.old text.new }
        ensures refused { OnErr result ((text.new ≡ text.old) × (self.new ≡ self.old)) }
    {
        vote_outputs(chassis, a, b, c, &mut self.out);
        write_scan(alloc, scan, chassis, a, b, c, &self.out, text)?;
        self.history.note(scan, Leg::A, a.judged);
        self.history.note(scan, Leg::B, b.judged);
        self.history.note(scan, Leg::C, c.judged);
        Ok(())
    }

    /// Lends the history of the scans so far.
    pub fn history(&self) -> &History
        ensures { result.now ≡ self.now }
    {
        &self.history
    }
}

/// Adds the parts of the first scans, of which each leg has its note. Where memory fails, those of
/// some scans may stand there.
pub fn write_scans<E: Engine>(
    alloc: Global,
    scans: u32,
    chassis: &Chassis,
    legs: &Triple<LegRun<E>>,
    teller: &mut ScanTeller,
    text: &mut Text,
) -> Result<(), NoMemory>
    requires fresh { teller.old ≡ [] }
    requires a { scans ≤ length legs.now.a.notes }
    requires b { scans ≤ length legs.now.b.notes }
    requires c { scans ≤ length legs.now.c.notes }
    ensures text { OnOk result (text.new.list ≡ text.old.list ++ scan_parts
        (told_first chassis.now (λ leg. note_of_scan (leg_part legs.now leg).notes) scans)) }
    ensures history { OnOk result (teller.new ≡ history_of
        (told_first chassis.now (λ leg. note_of_scan (leg_part legs.now leg).notes) scans)) }
{
    for scan in 0..scans {
        let a = note_of_scan(&legs.a, scan + 1);
        let b = note_of_scan(&legs.b, scan + 1);
        let c = note_of_scan(&legs.c, scan + 1);
        teller.tell(alloc, scan + 1, chassis, a, b, c, text)?;
    }
    Ok(())
}
