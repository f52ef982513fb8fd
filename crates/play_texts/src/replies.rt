ghost use Rattle.std.specs.Prelude.{◌≡◌, ◌++◌, OnOk};
ghost use Rattle.std.specs.List.{enumerate_from, flat_map};
ghost use Rattle.tri_base.specs.declared.leg.Triple.{Triple};
ghost use Rattle.modbus_face.specs.Replies.{reply_of};
ghost use Rattle.modbus_face.specs.ReplyLines.{reply_line};
ghost use Rattle.play_report.specs.LegsReport.{told_of};
ghost use Rattle.play_report.specs.Played.{HavePlayed};
ghost use Rattle.play_texts.specs.Replies.{asks_of, play_replies, scan_replies};

use crate::outputs::{output_room, vote_scan};
use engine_face::Engine;
use leg_core::LegRun;
use modbus_face::write_reply_line;
use play_report::note_of_scan;
use report_lines::{push_calm, push_led_line, push_line};
use script_text::Script;
use std::alloc::Global;
use tri_base::{NoMemory, Text, Triple, Words};

/// Adds the replies to the Modbus requests of a script that legs have played to its end. `uncalm`
/// is the first scan that isn't calm, counted from 1. Where memory fails, a part of it may stand
/// there.
pub fn write_play_replies<E: Engine>(
    alloc: Global,
    script: &Script,
    legs: &Triple<LegRun<E>>,
    uncalm: Option<u32>,
    text: &mut Text,
) -> Result<(), NoMemory>
    requires { let v = script.now.value in HavePlayed (E.meaning v.points) v legs.now }
    ensures { let v = script.now.value in OnOk result
        (text.new.list ≡ text.old.list ++ play_replies (E.meaning v.points) v uncalm) }
{
    push_led_line(text, b"TRICON MODBUS", 1, &[])?;
    push_replies(alloc, script, legs, text)?;
    push_calm(text, uncalm)?;
    push_line(text, b"END", &[])
}

/// Adds the replies of all scans.
fn push_replies<E: Engine>(
    alloc: Global,
    script: &Script,
    legs: &Triple<LegRun<E>>,
    text: &mut Text,
) -> Result<(), NoMemory>
    requires { let v = script.now.value in HavePlayed (E.meaning v.points) v legs.now }
    ensures { let v = script.now.value in OnOk result (text.new.list ≡ text.old.list
        ++ flat_map (scan_replies v) (enumerate_from 1 (told_of (E.meaning v.points) v))) }
{
    let mut out = output_room(alloc)?;
    for scan in 0..script.scans() {
        vote_scan(script.chassis(), legs, scan + 1, &mut out);
        let a = note_of_scan(&legs.a, scan + 1);
        push_scan(alloc, script, scan + 1, &a.voted.values, &out, text)?;
    }
    Ok(())
}

/// Adds the replies of a scan, counted from 1, over these voted inputs and field outputs.
fn push_scan(
    alloc: Global,
    script: &Script,
    scan: u32,
    inputs: &Words,
    outputs: &Words,
    text: &mut Text,
) -> Result<(), NoMemory>
    ensures { let v = script.now.value in OnOk result (text.new.list ≡ text.old.list
        ++ flat_map (λ request. reply_line scan
        (reply_of request v.points inputs.now.list outputs.now.list)) (asks_of v scan)) }
{
    for request in script.asks(scan) {
        write_reply_line(
            alloc,
            scan,
            request.bytes(),
            script.chassis(),
            inputs,
            outputs,
            text,
        )?;
    }
    Ok(())
}
