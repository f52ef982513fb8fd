ghost use Rattle.std.specs.Prelude.{◌≡◌, ◌≤◌, None, length, IfOk};
ghost use Rattle.std.specs.List.{All};
ghost use Rattle.tri_base.specs.Downloads.{Download};
ghost use Rattle.engine_face.specs.Meaning.{changes};
ghost use Rattle.chassis.specs.Ranges.{HoldsZero};
ghost use Rattle.script_text.specs.LegScans.{scan_at};
ghost use Rattle.plant_script.specs.SingleTexts.{accepts, text_changed, program_windows};
ghost use Rattle.plant_script.specs.Countdown as spec;
ghost use Rattle.plant_script.specs.Judging.{Judges};
ghost use Rattle.plant_script.specs.Inner.Meant.{is_no_memory};

use engine_face::{Engine, Refusal};
use script_text::Tape;
use std::alloc::Global;
use tri_base::{Name, NoMemory, Text};

/// The program of a text that builds.
pub fn built<E: Engine>(alloc: Global, engine: &E, text: &Text) -> Result<E::Program, NoMemory>
    requires { (E.meaning (E.points engine.now)).builds text.now.list ≡ None }
    ensures { IfOk result (λ program. E.text_of program ≡ text.now.list) }
{
    match engine.build(alloc, text) {
        Ok(program) => Ok(program),
        Err(_) => Err(NoMemory),
    }
}

/// What a program is changed to by a download, a text and the tags that it renames; or why it
/// refuses the download.
pub fn judged<E: Engine>(
    alloc: Global,
    engine: &E,
    program: &E::Program,
    text: &Text,
    renames: &[(Name, Name)],
) -> Result<Result<E::Program, Refusal>, NoMemory>
    requires { (E.meaning (E.points engine.now)).builds (E.text_of program.now) ≡ None }
    ensures { let m = E.meaning (E.points engine.now) in
        let download : Download = record { text = text.now.list; renames = renames.now } in
        IfOk result (λ outcome.
        Judges E.text_of (changes m (E.text_of program.now) download) text.now.list outcome) }
{
    match engine.change(alloc, program, text, renames) {
        Ok(new) => Ok(Ok(new)),
        Err(refusal) if is_no_memory(&refusal) => Err(NoMemory),
        Err(refusal) => Ok(Err(refusal)),
    }
}

/// A scan's change point: the program behind it, and whether a download was accepted.
pub(crate) fn changed<E: Engine>(
    alloc: Global,
    engine: &E,
    program: E::Program,
    tape: &Tape,
    scan: u32,
) -> Result<(E::Program, bool), NoMemory>
    requires scan { (1 ≤ scan) × (scan ≤ length tape.now.scans) }
    requires builds { (E.meaning (E.points engine.now)).builds (E.text_of program) ≡ None }
    ensures text { let m = E.meaning (E.points engine.now) in
        IfOk result (λ after. E.text_of after.0
        ≡ text_changed m (scan_at tape.now scan).download (E.text_of program)) }
    ensures accepted { let m = E.meaning (E.points engine.now) in
        IfOk result (λ after. after.1
        ≡ accepts m (scan_at tape.now scan).download (E.text_of program)) }
    ensures builds { let m = E.meaning (E.points engine.now) in
        IfOk result (λ after. m.builds (E.text_of after.0) ≡ None) }
{
    let Some(text) = tape.download(scan) else {
        return Ok((program, false));
    };
    match judged(alloc, engine, &program, text, tape.renames(scan))? {
        Ok(new) => Ok((new, true)),
        Err(_) => Ok((program, false)),
    }
}

/// Whether a refusal is want of memory.
fn is_no_memory(refusal: &Refusal) -> bool
    ensures { result ≡ is_no_memory refusal.now }
{
    match refusal {
        Refusal::NoMemory => true,
        _ => false,
    }
}

/// How many windows a program's text and words have: at most 320.
pub fn windows<E: Engine>(engine: &E, program: &E::Program) -> usize
    requires zeros { All HoldsZero (E.points engine.now) }
    requires builds { (E.meaning (E.points engine.now)).builds (E.text_of program.now) ≡ None }
    ensures value { let m = E.meaning (E.points engine.now) in
        result ≡ program_windows m (E.text_of program.now) }
    ensures few { result ≤ 320 }
{
    (engine.text(program).len() + engine.word_count(program)).div_ceil(64)
}

/// How many scans a leg has to come back, where the program has so many windows.
pub fn recovery_span(windows: usize) -> usize
    requires { windows ≤ 320 }
    ensures { result ≡ spec.recovery_span windows }
{
    3 * windows + 3
}

/// How many scans a leg has to come back, with this program.
pub(crate) fn span<E: Engine>(engine: &E, program: &E::Program) -> usize
    requires zeros { All HoldsZero (E.points engine.now) }
    requires builds { (E.meaning (E.points engine.now)).builds (E.text_of program.now) ≡ None }
    ensures { result ≡ spec.recovery_span
        (program_windows (E.meaning (E.points engine.now)) (E.text_of program.now)) }
{
    recovery_span(windows(engine, program))
}
