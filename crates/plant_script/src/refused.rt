ghost use Rattle.std.specs.Prelude.{◌≡◌, ◌++◌, List, ℕ, IfOk};
ghost use Rattle.std.specs.List.{flat_map};
ghost use Rattle.plant_script.specs.FirstRefused.{first_refused_in, first_refused_of, first_refused_swap_of, swap_text, swap_texts, with_lines};
ghost use Rattle.plant_script.specs.Inner.Blocks.{GoesOn, TakesLine};

use engine_face::{Engine, Refusal};
use script_text::{Moment, ScanLine, Script};
use std::alloc::Global;
use tri_base::{NoMemory, Text};

/// The line of the first block that the engine doesn't build, counted from 1, and why: of the TEXT
/// block, else of the first such SWAP block. None where all build.
pub fn first_refused<E: Engine>(
    alloc: Global,
    script: &Script,
    engine: &E,
) -> Result<Option<(u32, Refusal)>, NoMemory>
    ensures { IfOk result (λ found.
        found ≡ first_refused_of (E.meaning (E.points engine.now)) script.now) }
{
    if let Some(refusal) = refused(alloc, script.text(), engine)? {
        return Ok(Some((script.text_line(), refusal)));
    }
    first_refused_swap(alloc, script, engine)
}

/// The line of the first SWAP block that the engine doesn't build, counted from 1, and why. None
/// where all build.
pub fn first_refused_swap<E: Engine>(
    alloc: Global,
    script: &Script,
    engine: &E,
) -> Result<Option<(u32, Refusal)>, NoMemory>
    ensures { IfOk result (λ found.
        found ≡ first_refused_swap_of (E.meaning (E.points engine.now)) script.now) }
{
    refused_swap(alloc, script.moments(), script.swap_lines(), engine)
}

/// Why the engine doesn't build a text; None where it does.
fn refused<E: Engine>(alloc: Global, text: &Text, engine: &E) -> Result<Option<Refusal>, NoMemory>
    ensures { IfOk result (λ refusal.
        refusal ≡ (E.meaning (E.points engine.now)).builds text.now.list) }
{
    match engine.build(alloc, text) {
        Ok(program) => {
            drop(program);
            Ok(None)
        }
        Err(Refusal::NoMemory) => Err(NoMemory),
        Err(refusal) => Ok(Some(refusal)),
    }
}

/// The first SWAP block that the engine doesn't build, of the blocks whose lines are given.
fn refused_swap<E: Engine>(
    alloc: Global,
    moments: &[Moment],
    numbers: &[u32],
    engine: &E,
) -> Result<Option<(u32, Refusal)>, NoMemory>
    ensures { IfOk result (λ found. found ≡ first_refused_in (E.meaning (E.points engine.now))
        (with_lines numbers.now (swap_texts moments.now))) }
{
    let mut rest = moments;
    let mut seen = 0;
    'moments: while let [moment, behind @ ..] = rest {
        let (found, seen_then) = refused_in(alloc, moment.lines(), numbers, seen, engine)?;
        if found.is_some() {
            return Ok(found);
        }
        seen = seen_then;
        rest = behind;
    }
    Ok(None)
}

#[tactic(auto, using(crate::proofs::Facts::taken))]
/// The first refused of the SWAP blocks of one scan, where so many blocks were seen before it; and
/// how many are seen behind it where all build.
fn refused_in<E: Engine>(
    alloc: Global,
    lines: &[ScanLine],
    numbers: &[u32],
    seen: usize,
    engine: &E,
) -> Result<(Option<(u32, Refusal)>, usize), NoMemory>
    ensures { IfOk result (λ found. GoesOn (E.meaning (E.points engine.now))
        numbers.now seen (flat_map swap_text lines.now) found.0 found.1) }
{
    let mut rest = lines;
    let mut at = seen;
    'lines: while let [line, behind @ ..] = rest {
        if let ScanLine::Swap(_, block) = line {
            let (number, next) = take_line(numbers, at);
            if let Some(refusal) = refused(alloc, block.text(), engine)? {
                return Ok((Some((number, refusal)), at));
            }
            at = next;
        }
        rest = behind;
    }
    Ok((None, at))
}

/// The line of the next text, 0 where none is known, and the place of those behind it.
fn take_line(numbers: &[u32], at: usize) -> (u32, usize)
    ensures { TakesLine numbers.now at result.0 result.1 }
{
    match numbers.get(at) {
        Some(number) => (*number, at + 1),
        None => (0, at),
    }
}
