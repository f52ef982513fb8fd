ghost use Rattle.std.specs.Prelude.{◌≡◌, ◌++◌, map, IfOk, OnOk};
ghost use Rattle.tri_base.specs.declared.leg.Triple.{Triple};
ghost use Rattle.soe_log.specs.Recording.{recorder_after};
ghost use Rattle.play_report.specs.LegsReport.{told_of};
ghost use Rattle.play_report.specs.Played.{HavePlayed};
ghost use Rattle.play_texts.specs.Events.{play_events, shown_of};

use crate::outputs::{output_room, vote_scan};
use engine_face::Engine;
use leg_core::LegRun;
use play_report::note_of_scan;
use script_text::Script;
use soe_log::{Recorder, write_events};
use std::alloc::Global;
use tri_base::{NoMemory, Text, Triple};

/// Adds the text of the events of legs that have played a script to its end. `uncalm` is the first
/// scan that isn't calm, counted from 1. Where memory fails, a part of it may stand there.
pub fn write_play_events<E: Engine>(
    alloc: Global,
    script: &Script,
    legs: &Triple<LegRun<E>>,
    uncalm: Option<u32>,
    text: &mut Text,
) -> Result<(), NoMemory>
    requires { let v = script.now.value in HavePlayed (E.meaning v.points) v legs.now }
    ensures { let v = script.now.value in OnOk result
        (text.new.list ≡ text.old.list ++ play_events (E.meaning v.points) v uncalm) }
{
    let recorder = record_play(alloc, script, legs)?;
    write_events(alloc, &recorder, script.chassis(), uncalm, text)
}

/// The recorder of the play, which is shown what is told of each scan.
fn record_play<E: Engine>(
    alloc: Global,
    script: &Script,
    legs: &Triple<LegRun<E>>,
) -> Result<Recorder, NoMemory>
    requires { let v = script.now.value in HavePlayed (E.meaning v.points) v legs.now }
    ensures { let v = script.now.value in IfOk result (λ recorder.
        recorder ≡ recorder_after v.points (map shown_of (told_of (E.meaning v.points) v))) }
{
    // The points are those of a chassis, and a script has few scans.
    let _points = script.chassis().points();
    let _moments = script.moments();
    let mut recorder = Recorder::new(alloc, script.chassis())?;
    let mut out = output_room(alloc)?;
    for scan in 0..script.scans() {
        vote_scan(script.chassis(), legs, scan + 1, &mut out);
        let a = note_of_scan(&legs.a, scan + 1);
        recorder.note_scan(
            script.chassis(),
            scan + 1,
            a.voted.dt,
            &a.voted.values,
            &out,
        );
    }
    Ok(recorder)
}
