ghost use Rattle.std.specs.Prelude.{◌≡◌, ◌≤◌, length, IfOk};
ghost use Rattle.std.specs.List.{All};
ghost use Rattle.tri_base.specs.declared.leg.Triple.{Triple};
ghost use Rattle.tri_base.specs.Rows.{HasRoom};
ghost use Rattle.chassis.specs.Points.{point_limit};
ghost use Rattle.play_texts.specs.Inner.Noted.{HaveNotes, told_in};
ghost use Rattle.play_texts.specs.Inner.Sums.{IsCount};

use chassis::Chassis;
use engine_face::Engine;
use leg_core::LegRun;
use play_report::{note_of_scan, vote_outputs};
use std::alloc::Global;
use tri_base::{NoMemory, Triple, Words};

// No chassis has more outputs.
const POINT_LIMIT: usize = 256;

/// No words yet, with room for the field outputs of a scan.
pub(crate) fn output_room(alloc: Global) -> Result<Words, NoMemory>
    ensures { IfOk result (λ out. HasRoom point_limit out) }
{
    let mut out = Words::new(alloc);
    out.reserve(POINT_LIMIT)?;
    Ok(out)
}

/// Empties `out` and fills it with the field outputs of a scan, counted from 1, of which each leg
/// has its note.
pub(crate) fn vote_scan<E: Engine>(
    chassis: &Chassis,
    legs: &Triple<LegRun<E>>,
    scan: u32,
    out: &mut Words,
)
    requires first { 1 ≤ scan }
    requires notes { HaveNotes scan legs.now }
    requires room { HasRoom point_limit out.old }
    ensures outputs { out.new.list ≡ (told_in chassis.now legs.now scan).out }
    ensures counts { All IsCount out.new.list }
    ensures few { length out.new.list ≤ point_limit }
    ensures room { HasRoom point_limit out.new }
{
    // A chassis has few outputs, and their counts have 16 bits.
    let _points = chassis.points();
    let a = note_of_scan(&legs.a, scan);
    let b = note_of_scan(&legs.b, scan);
    let c = note_of_scan(&legs.c, scan);
    vote_outputs(chassis, a, b, c, out);
}
