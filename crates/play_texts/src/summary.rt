ghost use Rattle.std.specs.Prelude.{◌≡◌, ◌≤◌, ◌++◌, ◌^◌, ◌≤ℤ◌, ◌+ℤ◌, ◌-ℤ◌, neg_ℤ, pos, length, OnOk, if◌then◌else◌};
ghost use Rattle.std.specs.List.{All};
ghost use Rattle.tri_base.specs.declared.leg.Triple.{Triple};
ghost use Rattle.chassis.specs.Points.{point_limit};
ghost use Rattle.diag_report.specs.Report.{has_mp};
ghost use Rattle.play_report.specs.LegsReport.{legs_summary};
ghost use Rattle.play_report.specs.Played.{HavePlayed};
ghost use Rattle.play_texts.specs.Inner.Noted.{HaveNotes, told_in};
ghost use Rattle.play_texts.specs.Inner.Sums.{IsCount, plus_all};

use crate::outputs::{output_room, vote_scan};
use chassis::Chassis;
use diag_report::write_summary;
use engine_face::Engine;
use fault_history::alarms_of;
use leg_core::LegRun;
use play_report::note_of_scan;
use script_text::Script;
use std::alloc::Global;
use tri_base::{NoMemory, Text, Triple, Words};

/// Adds the summary of legs that have played a script to its end. `uncalm` is the first scan that
/// isn't calm, counted from 1. Where memory fails, a part of it may stand there.
pub fn write_play_summary<E: Engine>(
    alloc: Global,
    script: &Script,
    legs: &Triple<LegRun<E>>,
    uncalm: Option<u32>,
    text: &mut Text,
) -> Result<(), NoMemory>
    requires { let v = script.now.value in HavePlayed (E.meaning v.points) v legs.now }
    ensures { let v = script.now.value in OnOk result
        (text.new.list ≡ text.old.list ++ legs_summary (E.meaning v.points) v uncalm) }
{
    let mut out = output_room(alloc)?;
    let mut sum = 0;
    let mut alarmed = 0;
    for scan in 0..script.scans() {
        vote_scan(script.chassis(), legs, scan + 1, &mut out);
        sum = plus_all(sum, out.items());
        alarmed += count_alarm(script.chassis(), legs, scan + 1, &out);
    }
    write_summary(alloc, script.scans(), sum, alarmed, uncalm, text)
}

/// 1 where a scan, counted from 1, has the alarm MP, else 0. Each leg has its note of the scan, and
/// `out` has the field outputs.
fn count_alarm<E: Engine>(
    chassis: &Chassis,
    legs: &Triple<LegRun<E>>,
    scan: u32,
    out: &Words,
) -> u32
    requires first { 1 ≤ scan }
    requires notes { HaveNotes scan legs.now }
    requires outputs { out.now.list ≡ (told_in chassis.now legs.now scan).out }
    ensures count { result ≡ (if has_mp (told_in chassis.now legs.now scan) then 1 else 0) }
    ensures few { result ≤ 1 }
{
    let a = note_of_scan(&legs.a, scan);
    let b = note_of_scan(&legs.b, scan);
    let c = note_of_scan(&legs.c, scan);
    u32::from(alarms_of(a, b, c, out).mp)
}

/// A number and the sum of counts.
fn plus_all(sum: i64, counts: &[i64]) -> i64
    requires counts { All IsCount counts.now }
    requires few { length counts.now ≤ point_limit }
    requires low { neg_ℤ (pos (2 ^ 60)) ≤ℤ sum }
    requires high { sum ≤ℤ pos (2 ^ 60) }
    ensures sum { result ≡ plus_all sum counts.now }
    ensures low { (sum -ℤ pos (2 ^ 23)) ≤ℤ result }
    ensures high { result ≤ℤ (sum +ℤ pos (2 ^ 23)) }
{
    let mut all = sum;
    for count in counts {
        all += *count;
    }
    all
}
