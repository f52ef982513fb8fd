ghost use Rattle.std.specs.Prelude.{◌≡◌, ◌≤◌, ◌-◌, [], ◌∷◌, ◌++◌, None, OnOk, codes, pos};
ghost use Rattle.std.specs.List.{All, flat_map, range_with_len};
ghost use Rattle.chassis.specs.Ranges.{HoldsZero};
ghost use Rattle.single_controller.specs.Standing.{Stands};
ghost use Rattle.report_lines.specs.Lines.{line};
ghost use Rattle.controller_report.specs.SoloReport.{final_line, flag_number, scan_of_report, solo_report, verdict_lines};

use engine_face::{Engine, Refusal};
use report_lines::{push_led_line, push_line, push_refusal};
use script_text::Script;
use single_controller::{Single, start};
use std::alloc::Global;
use tri_base::{NoMemory, Text, push_bytes};

/// Plays the one controller without faults, and adds its report. The engine is one over the
/// script's points, and the program that of the script's text. Where memory fails, a part of it may
/// stand there.
pub fn write_solo<E: Engine>(
    alloc: Global,
    engine: &E,
    script: &Script,
    program: E::Program,
    into: &mut Text,
) -> Result<(), NoMemory>
    requires program { E.text_of program ≡ script.now.value.text }
    requires zeros { All HoldsZero (E.points engine.now) }
    requires points { E.points engine.now ≡ script.now.value.points }
    requires builds { (E.meaning (E.points engine.now)).builds script.now.value.text ≡ None }
    ensures { let m = E.meaning (E.points engine.now) in
        OnOk result (into.new.list ≡ into.old.list ++ solo_report m script.now.value) }
{
    let mut single = start(alloc, engine, script, program)?;
    push_led_line(into, b"TRICON SOLO", 1, &[])?;
    push_scans(alloc, engine, script, &mut single, into)?;
    push_final(into, &single)?;
    push_line(into, b"END", &[])
}

/// Plays all scans, and adds their lines.
fn push_scans<E: Engine>(
    alloc: Global,
    engine: &E,
    script: &Script,
    single: &mut Single<E>,
    into: &mut Text,
) -> Result<(), NoMemory>
    requires stands { Stands (E.meaning (E.points engine.now)) script.now.value 0 single.old }
    requires zeros { All HoldsZero (E.points engine.now) }
    requires points { E.points engine.now ≡ script.now.value.points }
    ensures text { let m = E.meaning (E.points engine.now) in let v = script.now.value in
        OnOk result (into.new.list
        ≡ into.old.list ++ flat_map (scan_of_report m v) (range_with_len 1 v.scans)) }
    ensures stands { let m = E.meaning (E.points engine.now) in let v = script.now.value in
        OnOk result (Stands m v v.scans single.new) }
{
    for scan in 0..script.scans() {
        push_scan(alloc, engine, script, single, scan + 1, into)?;
    }
    Ok(())
}

/// Plays one scan, and adds its lines.
fn push_scan<E: Engine>(
    alloc: Global,
    engine: &E,
    script: &Script,
    single: &mut Single<E>,
    scan: u32,
    into: &mut Text,
) -> Result<(), NoMemory>
    requires stands { let m = E.meaning (E.points engine.now) in
        Stands m script.now.value (scan - 1) single.old }
    requires scan { (1 ≤ scan) × (scan ≤ script.now.value.scans) }
    requires zeros { All HoldsZero (E.points engine.now) }
    requires points { E.points engine.now ≡ script.now.value.points }
    ensures text { let m = E.meaning (E.points engine.now) in
        OnOk result (into.new.list
        ≡ into.old.list ++ scan_of_report m script.now.value scan) }
    ensures stands { let m = E.meaning (E.points engine.now) in
        OnOk result (Stands m script.now.value scan single.new) }
{
    let outcome = single.next_scan(alloc, engine, script, scan)?;
    push_number(into, scan)?;
    push_verdict(into, &outcome.verdict)?;
    push_inputs(into, single)?;
    push_outputs(into, single)?;
    push_flag(into, outcome.arith)
}

/// Adds the line of a scan's number.
fn push_number(into: &mut Text, scan: u32) -> Result<(), NoMemory>
    ensures { OnOk result
        (into.new.list ≡ into.old.list ++ line (codes "SCAN") (pos scan ∷ [])) }
{
    push_led_line(into, b"SCAN", i64::from(scan), &[])
}

/// Adds the line of the voted scan time and inputs.
fn push_inputs<E: Engine>(into: &mut Text, single: &Single<E>) -> Result<(), NoMemory>
    ensures { let voted = single.now.voted in
        OnOk result (into.new.list
        ≡ into.old.list ++ line (codes "IN") (voted.time ∷ voted.values)) }
{
    push_led_line(into, b"IN", single.time(), single.inputs())
}

/// Adds the line of the outputs.
fn push_outputs<E: Engine>(into: &mut Text, single: &Single<E>) -> Result<(), NoMemory>
    ensures { OnOk result
        (into.new.list ≡ into.old.list ++ line (codes "OUT") single.now.outputs) }
{
    push_line(into, b"OUT", single.outputs())
}

/// Adds the line of the flag ARITH.
fn push_flag(into: &mut Text, arith: bool) -> Result<(), NoMemory>
    ensures { OnOk result
        (into.new.list ≡ into.old.list ++ line (codes "ARITH") (flag_number arith ∷ [])) }
{
    push_led_line(into, b"ARITH", i64::from(arith), &[])
}

/// Adds the line of the state after the last scan.
fn push_final<E: Engine>(into: &mut Text, single: &Single<E>) -> Result<(), NoMemory>
    ensures { OnOk result (into.new.list ≡ into.old.list ++ final_line single.now.controller) }
{
    push_led_line(into, b"FINAL", i64::from(single.epoch()), single.words())
}

/// Adds the line of a verdict, where there is a download.
fn push_verdict(into: &mut Text, verdict: &Option<Option<Refusal>>) -> Result<(), NoMemory>
    ensures { OnOk result (into.new.list ≡ into.old.list ++ verdict_lines verdict.now) }
{
    match verdict {
        None => Ok(()),
        Some(None) => push_bytes(into, b"VERDICT ACCEPTED\n"),
        Some(Some(refusal)) => push_refused(into, refusal),
    }
}

/// Adds the line of a download that is refused.
fn push_refused(into: &mut Text, refusal: &Refusal) -> Result<(), NoMemory>
    ensures { OnOk result
        (into.new.list ≡ into.old.list ++ verdict_lines (Some (Some refusal.now))) }
{
    push_bytes(into, b"VERDICT REFUSED ")?;
    push_refusal(into, refusal)?;
    push_bytes(into, b"\n")
}
