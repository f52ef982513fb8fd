ghost use Rattle.std.specs.Prelude.{◌≡◌, ◌≤◌, ◌++◌, None, codes, length, IfOk, OnOk};
ghost use Rattle.std.specs.List.{All};
ghost use Rattle.chassis.specs.Ranges.{HoldsZero};
ghost use Rattle.script_text.specs.LegScans.{scan_at};
ghost use Rattle.report_lines.specs.Lines.{line, two_words};
ghost use Rattle.report_lines.specs.Refusals.{named, refusal_text};
ghost use Rattle.plant_script.specs.SingleTexts.{text_changed};
ghost use Rattle.check_report.specs.CheckText as spec;
ghost use Rattle.check_report.specs.Inner.Told.{told};

use engine_face::{Engine, Refusal};
use plant_script::{Script, Tape, judged, recovery_span, windows};
use report_lines::{push_line, push_refusal, push_spaced};
use std::alloc::Global;
use tri_base::{Leg, NoMemory, Text, push_bytes};

/// Adds what is told of a script whose text builds: the program's bytes, words, windows and
/// recovery span; and of each download whether it is accepted by the program that stands there,
/// with its sizes, or why it is refused. The program is that of the script's text. Where memory
/// fails, a part of it may stand there.
pub fn write_check<E: Engine>(
    alloc: Global,
    engine: &E,
    script: &Script,
    program: E::Program,
    text: &mut Text,
) -> Result<(), NoMemory>
    requires program { E.text_of program ≡ script.now.value.text }
    requires zeros { All HoldsZero (E.points engine.now) }
    requires builds { (E.meaning (E.points engine.now)).builds script.now.value.text ≡ None }
    ensures { OnOk result (text.new.list ≡ text.old.list
        ++ spec.check_text (E.meaning (E.points engine.now)) script.now.value) }
{
    push_line(text, b"TRICON CHECK", &[1])?;
    push_line(text, b"PROGRAM", &sizes(engine, &program))?;
    push_downloads(alloc, engine, program, script, text)?;
    push_line(text, b"END", &[])?;
    Ok(())
}

/// A program's bytes, words, windows and recovery span.
fn sizes<E: Engine>(engine: &E, program: &E::Program) -> [i64; 4]
    requires zeros { All HoldsZero (E.points engine.now) }
    requires builds { (E.meaning (E.points engine.now)).builds (E.text_of program.now) ≡ None }
    ensures { result ≡ spec.sizes_of (E.meaning (E.points engine.now)) (E.text_of program.now) }
{
    let windows = windows(engine, program);
    [
        engine.text(program).len() as i64,
        engine.word_count(program) as i64,
        windows as i64,
        recovery_span(windows) as i64,
    ]
}

/// Adds the lines of all downloads, of which the first is judged against the script's text.
fn push_downloads<E: Engine>(
    alloc: Global,
    engine: &E,
    first: E::Program,
    script: &Script,
    text: &mut Text,
) -> Result<(), NoMemory>
    requires zeros { All HoldsZero (E.points engine.now) }
    requires builds { (E.meaning (E.points engine.now)).builds (E.text_of first) ≡ None }
    requires first { E.text_of first ≡ script.now.value.text }
    ensures { OnOk result (text.new.list ≡ text.old.list
        ++ told (E.meaning (E.points engine.now)) script.now.value script.now.value.scans) }
{
    let tape = script.tape(alloc, Leg::A)?;
    let mut program = first;
    let mut scan = 0;
    'scans: while scan < script.scans() {
        program = push_download(alloc, engine, program, &tape, scan + 1, text)?;
        scan += 1;
    }
    Ok(())
}

/// Adds the line of a scan's download, and answers the program behind it.
fn push_download<E: Engine>(
    alloc: Global,
    engine: &E,
    program: E::Program,
    tape: &Tape,
    scan: u32,
    text: &mut Text,
) -> Result<E::Program, NoMemory>
    requires scan { (1 ≤ scan) × (scan ≤ length tape.now.scans) }
    requires zeros { All HoldsZero (E.points engine.now) }
    requires builds { (E.meaning (E.points engine.now)).builds (E.text_of program) ≡ None }
    ensures text { let m = E.meaning (E.points engine.now) in
        OnOk result (text.new.list ≡ text.old.list
        ++ spec.download_lines m scan (scan_at tape.now scan).download (E.text_of program)) }
    ensures program { let m = E.meaning (E.points engine.now) in
        IfOk result (λ after. E.text_of after
        ≡ text_changed m (scan_at tape.now scan).download (E.text_of program)) }
    ensures builds { let m = E.meaning (E.points engine.now) in
        IfOk result (λ after. m.builds (E.text_of after) ≡ None) }
{
    let Some(download) = tape.download(scan) else {
        return Ok(program);
    };
    match judged(alloc, engine, &program, download, tape.renames(scan))? {
        Ok(new) => {
            push_accepted(scan, &sizes(engine, &new), text)?;
            Ok(new)
        }
        Err(refusal) => {
            push_refused(scan, &refusal, text)?;
            Ok(program)
        }
    }
}

/// Adds the line of an accepted download with its sizes.
fn push_accepted(scan: u32, sizes: &[i64], text: &mut Text) -> Result<(), NoMemory>
    ensures { OnOk result (text.new.list ≡ text.old.list
        ++ line (named (spec.at_scan scan) (codes "ACCEPTED")) sizes.now) }
{
    push_bytes(text, b"AT")?;
    push_spaced(text, i64::from(scan))?;
    push_line(text, b" ACCEPTED", sizes)
}

/// Adds the line of a refused download with the reason.
fn push_refused(scan: u32, refusal: &Refusal, text: &mut Text) -> Result<(), NoMemory>
    ensures { OnOk result (text.new.list ≡ text.old.list
        ++ two_words (spec.at_scan scan) (named (codes "REFUSED") (refusal_text refusal.now))) }
{
    push_bytes(text, b"AT")?;
    push_spaced(text, i64::from(scan))?;
    push_bytes(text, b" REFUSED ")?;
    push_refusal(text, refusal)?;
    push_bytes(text, b"\n")
}
