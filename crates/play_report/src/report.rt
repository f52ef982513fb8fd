ghost use Rattle.std.specs.Prelude.{◌≡◌, ◌++◌, OnOk};
ghost use Rattle.play_report.specs.LegsReport.{legs_report};
ghost use Rattle.play_report.specs.Played.{HavePlayed};

use crate::ending::write_ending;
use crate::scans::{ScanTeller, write_scans};
use diag_report::write_head;
use engine_face::Engine;
use leg_core::LegRun;
use script_text::Script;
use std::alloc::Global;
use tri_base::{NoMemory, Text, Triple};

/// Adds the report of legs that have played a script to its end. `uncalm` is the first scan that
/// isn't calm, counted from 1. Where memory fails, a part of it may stand there.
pub fn write_report<E: Engine>(
    alloc: Global,
    script: &Script,
    legs: &Triple<LegRun<E>>,
    uncalm: Option<u32>,
    text: &mut Text,
) -> Result<(), NoMemory>
    requires { let v = script.now.value in HavePlayed (E.meaning v.points) v legs.now }
    ensures { let v = script.now.value in OnOk result
        (text.new.list ≡ text.old.list ++ legs_report (E.meaning v.points) v uncalm) }
{
    let mut teller = ScanTeller::new(alloc)?;
    write_head(text)?;
    write_scans(
        alloc,
        script.scans(),
        script.chassis(),
        legs,
        &mut teller,
        text,
    )?;
    write_ending(alloc, script.chassis(), legs, &teller, uncalm, text)
}
