ghost use Rattle.std.specs.Prelude.{◌≡◌, ◌≤◌, ◌↔◌, IsTrue, None, IfOk, length};
ghost use Rattle.std.specs.List.{All};
ghost use Rattle.chassis.specs.Ranges.{HoldsZero};
ghost use Rattle.script_text.specs.LegScans.{scan_at};
ghost use Rattle.plant_script.specs.SingleTexts.{accepts, program_windows, text_changed};
ghost use Rattle.plant_script.specs.Countdown.{counted_down, is_quiet, recovery_span};
ghost use Rattle.plant_script.specs.Calm.{IsFirstUncalm};
ghost use Rattle.plant_script.specs.Inner.Scans.{IsQuietThere, counts_behind, tapes_of};

use crate::countdown::{counted_down, is_quiet};
use crate::faces::shows_both_the_same;
use crate::single_text::{built, changed, span};
use engine_face::Engine;
use script_text::{Script, Tape};
use std::alloc::Global;
use tri_base::{Leg, NoMemory, Triple};

/// The first scan that isn't calm, counted from 1; None where all are.
pub fn first_uncalm<E: Engine>(
    alloc: Global,
    script: &Script,
    engine: &E,
) -> Result<Option<u32>, NoMemory>
    requires zeros { All HoldsZero (E.points engine.now) }
    requires builds { (E.meaning (E.points engine.now)).builds script.now.value.text ≡ None }
    ensures { IfOk result
        (λ found. IsFirstUncalm (E.meaning (E.points engine.now)) script.now.value found) }
{
    let tapes = read_tapes(alloc, script)?;
    let mut program = built(alloc, engine, script.text())?;
    let mut counts = Triple { a: 0, b: 0, c: 0 };
    let mut scan = 0;
    'scans: while scan < script.scans() {
        let (after, counts_after) = next_scan(alloc, engine, program, counts, &tapes, scan + 1)?;
        program = after;
        counts = counts_after;
        scan += 1;
        if !is_quiet_scan(counts, &tapes, scan) {
            return Ok(Some(scan));
        }
    }
    Ok(None)
}

/// A scan: the program behind its change point, and the countdowns behind it.
fn next_scan<E: Engine>(
    alloc: Global,
    engine: &E,
    program: E::Program,
    counts: Triple<usize>,
    tapes: &Triple<Tape>,
    scan: u32,
) -> Result<(E::Program, Triple<usize>), NoMemory>
    requires a { (1 ≤ scan) × (scan ≤ length tapes.now.a.scans) }
    requires b { (1 ≤ scan) × (scan ≤ length tapes.now.b.scans) }
    requires c { (1 ≤ scan) × (scan ≤ length tapes.now.c.scans) }
    requires zeros { All HoldsZero (E.points engine.now) }
    requires builds { (E.meaning (E.points engine.now)).builds (E.text_of program) ≡ None }
    ensures text { let m = E.meaning (E.points engine.now) in
        IfOk result (λ next. E.text_of next.0
        ≡ text_changed m (scan_at tapes.now.a scan).download (E.text_of program)) }
    ensures builds { let m = E.meaning (E.points engine.now) in
        IfOk result (λ next. m.builds (E.text_of next.0) ≡ None) }
    ensures counts { let m = E.meaning (E.points engine.now) in
        IfOk result (λ next. next.1 ≡ counts_behind (scan_at tapes.now.a scan)
        (scan_at tapes.now.b scan) (scan_at tapes.now.c scan)
        (accepts m (scan_at tapes.now.a scan).download (E.text_of program))
        (recovery_span (program_windows m (E.text_of next.0))) counts) }
{
    let (after, accepted) = changed(alloc, engine, program, &tapes.a, scan)?;
    let span = span(engine, &after);
    Ok((after, count_scan(counts, tapes, scan, accepted, span)))
}

/// What the three legs see.
fn read_tapes(alloc: Global, script: &Script) -> Result<Triple<Tape>, NoMemory>
    ensures { IfOk result (λ tapes. tapes ≡ tapes_of script.now.value) }
{
    let a = script.tape(alloc, Leg::A)?;
    let b = script.tape(alloc, Leg::B)?;
    let c = script.tape(alloc, Leg::C)?;
    Ok(Triple { a, b, c })
}

/// The countdowns behind a scan, from those before.
fn count_scan(
    counts: Triple<usize>,
    tapes: &Triple<Tape>,
    scan: u32,
    accepted: bool,
    span: usize,
) -> Triple<usize>
    requires a { (1 ≤ scan) × (scan ≤ length tapes.now.a.scans) }
    requires b { (1 ≤ scan) × (scan ≤ length tapes.now.b.scans) }
    requires c { (1 ≤ scan) × (scan ≤ length tapes.now.c.scans) }
    ensures { result ≡ counts_behind (scan_at tapes.now.a scan) (scan_at tapes.now.b scan)
        (scan_at tapes.now.c scan) accepted span counts }
{
    Triple {
        a: counted_down(is_quiet(&tapes.a, scan), accepted, span, counts.a),
        b: counted_down(is_quiet(&tapes.b, scan), accepted, span, counts.b),
        c: counted_down(is_quiet(&tapes.c, scan), accepted, span, counts.c),
    }
}

/// Whether at most one leg is suspect, and each shows both sides the same.
fn is_quiet_scan(counts: Triple<usize>, tapes: &Triple<Tape>, scan: u32) -> bool
    requires a { (1 ≤ scan) × (scan ≤ length tapes.now.a.scans) }
    requires b { (1 ≤ scan) × (scan ≤ length tapes.now.b.scans) }
    requires c { (1 ≤ scan) × (scan ≤ length tapes.now.c.scans) }
    ensures { IsTrue result ↔ IsQuietThere counts (scan_at tapes.now.a scan)
        (scan_at tapes.now.b scan) (scan_at tapes.now.c scan) }
{
    (counts.a == 0 && counts.b == 0
        || counts.b == 0 && counts.c == 0
        || counts.c == 0 && counts.a == 0)
        && shows_both_the_same(&tapes.a, scan)
        && shows_both_the_same(&tapes.b, scan)
        && shows_both_the_same(&tapes.c, scan)
}
