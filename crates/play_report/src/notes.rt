ghost use Rattle.std.specs.Prelude.{◌≡◌, ◌≤◌, length};
ghost use Rattle.std.specs.List.{AllZip};
ghost use Rattle.tri_base.specs.declared.leg.Triple.{Triple};
ghost use Rattle.tri_base.specs.Legs.{leg_part};
ghost use Rattle.tri_base.specs.Rows.{HasRoom, KeepsRoom};
ghost use Rattle.chassis.specs.Points.{outputs_of, point_limit};
ghost use Rattle.chassis.specs.Ranges.{IsWithin};
ghost use Rattle.fault_history.specs.Notes.{NoteData, note_data};
ghost use Rattle.majority_laws.specs.Carried.{field_outputs};
ghost use Rattle.play_report.specs.Told.{note_of_scan};

use chassis::Chassis;
use engine_face::Engine;
use fault_history::Note;
use leg_core::LegRun;
use output_voter::vote_drives;
use tri_base::Words;

/// A leg's note of a scan, counted from 1.
pub fn note_of_scan<E: Engine>(run: &LegRun<E>, scan: u32) -> &Note
    requires { (1 ≤ scan) × (scan ≤ length run.now.notes) }
    ensures { note_data result.now ≡ note_of_scan run.now.notes scan }
{
    &run.notes()[scan as usize - 1]
}

/// Empties `out` and fills it with the field outputs of a scan of which the legs made these notes:
/// one word for each output in chassis order.
pub fn vote_outputs(chassis: &Chassis, a: &Note, b: &Note, c: &Note, out: &mut Words)
    requires { HasRoom point_limit out.old }
    ensures outputs { let notes : Triple NoteData =
        record { a = note_data a.now; b = note_data b.now; c = note_data c.now } in
        out.new.list ≡ field_outputs chassis.now (leg_part notes) }
    ensures within { AllZip IsWithin (outputs_of chassis.now) out.new.list }
    ensures count { length out.new.list ≡ length (outputs_of chassis.now) }
    ensures room { KeepsRoom out.old out.new }
{
    // A chassis has few outputs.
    let _points = chassis.points();
    vote_drives(
        chassis,
        a.drive.as_ref(),
        b.drive.as_ref(),
        c.drive.as_ref(),
        out,
    );
}
