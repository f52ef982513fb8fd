ghost use Rattle.std.specs.Prelude.{◌≡◌, ◌≤◌, ◌-◌, [], ◌∷◌, ◌++◌, ◌^◌, ◌≤ℤ◌, ◌+ℤ◌, ◌-ℤ◌, neg_ℤ, pos, None, length, IfOk, OnOk, codes};
ghost use Rattle.std.specs.List.{All};
ghost use Rattle.chassis.specs.Ranges.{HoldsZero};
ghost use Rattle.report_lines.specs.Lines.{line};
ghost use Rattle.single_controller.specs.Controller.{scanned_at};
ghost use Rattle.single_controller.specs.Standing.{Stands};
ghost use Rattle.controller_report.specs.SoloSummary.{output_sum, plus_all, solo_summary};
ghost use Rattle.controller_report.specs.Inner.Sums.{IsCount, IsNear};

use engine_face::Engine;
use report_lines::{push_led_line, push_line};
use script_text::Script;
use single_controller::{Single, start};
use std::alloc::Global;
use tri_base::{NoMemory, Text};

/// Plays the one controller without faults, and adds the summary of its run. The engine is one over
/// the script's points, and the program that of the script's text. Where memory fails, a part of it
/// may stand there.
pub fn write_solo_summary<E: Engine>(
    alloc: Global,
    engine: &E,
    script: &Script,
    program: E::Program,
    into: &mut Text,
) -> Result<(), NoMemory>
    requires program { E.text_of program ≡ script.now.value.text }
    requires zeros { All HoldsZero (E.points engine.now) }
    requires points { E.points engine.now ≡ script.now.value.points }
    requires builds { (E.meaning (E.points engine.now)).builds script.now.value.text ≡ None }
    ensures { let m = E.meaning (E.points engine.now) in
        OnOk result (into.new.list ≡ into.old.list ++ solo_summary m script.now.value) }
{
    push_led_line(into, b"TRICON SUMMARY", 1, &[])?;
    push_scans(into, script.scans())?;
    push_sum(alloc, engine, script, program, into)?;
    push_line(into, b"END", &[])
}

/// Adds the line of the number of scans.
fn push_scans(into: &mut Text, scans: u32) -> Result<(), NoMemory>
    ensures { OnOk result
        (into.new.list ≡ into.old.list ++ line (codes "SCANS") (pos scans ∷ [])) }
{
    push_led_line(into, b"SCANS", i64::from(scans), &[])
}

/// Plays the one controller, and adds the line of the sum of its outputs.
fn push_sum<E: Engine>(
    alloc: Global,
    engine: &E,
    script: &Script,
    program: E::Program,
    into: &mut Text,
) -> Result<(), NoMemory>
    requires program { E.text_of program ≡ script.now.value.text }
    requires zeros { All HoldsZero (E.points engine.now) }
    requires points { E.points engine.now ≡ script.now.value.points }
    requires builds { (E.meaning (E.points engine.now)).builds script.now.value.text ≡ None }
    ensures { let m = E.meaning (E.points engine.now) in
        OnOk result (into.new.list
        ≡ into.old.list ++ line (codes "SUM") (output_sum m script.now.value ∷ [])) }
{
    let sum = output_sum(alloc, engine, script, program)?;
    push_led_line(into, b"SUM", sum, &[])
}

/// The sum of all outputs of all scans.
fn output_sum<E: Engine>(
    alloc: Global,
    engine: &E,
    script: &Script,
    program: E::Program,
) -> Result<i64, NoMemory>
    requires program { E.text_of program ≡ script.now.value.text }
    requires zeros { All HoldsZero (E.points engine.now) }
    requires points { E.points engine.now ≡ script.now.value.points }
    requires builds { (E.meaning (E.points engine.now)).builds script.now.value.text ≡ None }
    ensures { let m = E.meaning (E.points engine.now) in
        IfOk result (λ sum. sum ≡ output_sum m script.now.value) }
{
    let mut single = start(alloc, engine, script, program)?;
    let mut sum = 0;
    for scan in 0..script.scans() {
        sum = add_scan(alloc, engine, script, &mut single, scan + 1, sum)?;
    }
    Ok(sum)
}

/// Plays one scan, and adds its outputs to the sum of those before.
fn add_scan<E: Engine>(
    alloc: Global,
    engine: &E,
    script: &Script,
    single: &mut Single<E>,
    scan: u32,
    sum: i64,
) -> Result<i64, NoMemory>
    requires stands { let m = E.meaning (E.points engine.now) in
        Stands m script.now.value (scan - 1) single.old }
    requires scan { (1 ≤ scan) × (scan ≤ script.now.value.scans) }
    requires zeros { All HoldsZero (E.points engine.now) }
    requires points { E.points engine.now ≡ script.now.value.points }
    requires near { IsNear (scan - 1) sum }
    ensures stands { let m = E.meaning (E.points engine.now) in
        OnOk result (Stands m script.now.value scan single.new) }
    ensures sum { let m = E.meaning (E.points engine.now) in
        IfOk result (λ all. all ≡ plus_all sum (scanned_at m script.now.value scan).outputs) }
    ensures near { IfOk result (IsNear scan) }
{
    // A chassis has few outputs, and their counts have 16 bits.
    let _points = script.chassis().points();
    let _outcome = single.next_scan(alloc, engine, script, scan)?;
    Ok(plus_all(sum, single.outputs()))
}

/// A number and the sum of counts.
fn plus_all(sum: i64, counts: &[i64]) -> i64
    requires counts { All IsCount counts.now }
    requires few { length counts.now ≤ 256 }
    requires low { neg_ℤ (pos (2 ^ 60)) ≤ℤ sum }
    requires high { sum ≤ℤ pos (2 ^ 60) }
    ensures sum { result ≡ plus_all sum counts.now }
    ensures low { (sum -ℤ pos (2 ^ 23)) ≤ℤ result }
    ensures high { result ≤ℤ (sum +ℤ pos (2 ^ 23)) }
{
    let mut all = sum;
    for count in counts {
        all += *count;
    }
    all
}
