ghost use Rattle.std.specs.Prelude.{◌≡◌, ◌++◌, Some, length, OnErr, OnOk};
ghost use Rattle.tri_base.specs.declared.leg.Triple.{Triple};
ghost use Rattle.tri_base.specs.Rows.{KeepsRoom};
ghost use Rattle.chassis.specs.Points.{inputs_of};
ghost use Rattle.fault_history.specs.Notes.{EndingData};
ghost use Rattle.diag_report.specs.EndPart.{end_part_of};
ghost use Rattle.play_report.specs.Marks.{marks_of};
ghost use Rattle.play_report.specs.Tables.{EndSo, HaveInputs, tables_in};

use crate::marks::mark_list;
use crate::scans::ScanTeller;
use chassis::{Chassis, is_input};
use diag_report::write_end;
use engine_face::Engine;
use leg_core::LegRun;
use std::alloc::Global;
use tri_base::{NoMemory, Point, Text, Triple};

/// Adds the part of the report behind the last scan, all of it or nothing: the history, what the
/// legs mark, how they stand, and the first scan that wasn't calm. NoMemory comes too where a leg
/// is starved, and Ok never does.
pub fn write_ending<E: Engine>(
    alloc: Global,
    chassis: &Chassis,
    legs: &Triple<LegRun<E>>,
    teller: &ScanTeller,
    uncalm: Option<u32>,
    text: &mut Text,
) -> Result<(), NoMemory>
    requires { HaveInputs (length (inputs_of chassis.now)) legs.now }
    ensures text { (ends : Triple EndingData) → EndSo legs.now ends → OnOk result (text.new.list
        ≡ text.old.list ++ end_part_of chassis.now teller.now
        (marks_of (length (inputs_of chassis.now)) (tables_in legs.now))
        ends.a ends.b ends.c uncalm) }
    ensures fed { OnOk result ((ends : Triple EndingData) × EndSo legs.now ends) }
    ensures room { KeepsRoom text.old text.new }
    ensures refused { OnErr result (text.new ≡ text.old) }
{
    let marks = mark_list(alloc, input_count(chassis.points()), legs)?;
    let Some(a) = legs.a.ending() else {
        return Err(NoMemory);
    };
    let Some(b) = legs.b.ending() else {
        return Err(NoMemory);
    };
    let Some(c) = legs.c.ending() else {
        return Err(NoMemory);
    };
    write_end(
        alloc,
        teller.history(),
        marks.as_slice(),
        chassis,
        a,
        b,
        c,
        uncalm,
        text,
    )
}

/// How many inputs there are.
fn input_count(points: &[Point]) -> usize
    ensures { result ≡ length (inputs_of points.now) }
{
    points.iter().filter(|point| is_input(point.kind)).count()
}
