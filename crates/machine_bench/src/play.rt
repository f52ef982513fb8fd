// What the program does with made-up code.

ghost use Rattle.std.specs.Prelude.{◌≡◌, ◌<◌, ◌≤◌, length};

use crate::made::{LOOP_WORDS, branches, loops};
use scan_machine::{Code, Steps, run};
use std::alloc::{AllocError, Global};
use std::marker::Brand;
use std::sync::ledger::{Blank, Ledger};
use tri_base::{NoMemory, Touched, Words, push_word};

/// Runs the nested loops, and answers their sum.
pub fn run_loops(alloc: Global, turns: u32) -> Result<i64, NoMemory> {
    let instructions = loops(alloc, turns).map_err(|_| NoMemory)?;
    let Ok(code) = Code::verify(instructions, LOOP_WORDS) else {
        return Ok(-1);
    };
    let mut words = Words::new(alloc);
    for _ in 0..LOOP_WORDS {
        push_word(&mut words, 0)?;
    }
    let mut touched = Touched::new(alloc, LOOP_WORDS)?;
    if words.len() != code.words() || words.len() > 4 {
        return Ok(-2);
    }
    uncounted(&code, &mut words, &mut touched);
    Ok(words.items()[2])
}

// A run whose instructions nobody counts.
fn uncounted(code: &Code, words: &mut Words, touched: &mut Touched)
    requires words { length words.old.list ≡ code.now.words }
    requires touched { code.now.words ≤ touched.old.size }
    ensures { length words.new.list ≡ length words.old.list }
{
    counted::<Brand>(Blank::new(1), code, words, touched);
}

fn counted<L: Ledger>(blank: Blank, code: &Code, words: &mut Words, touched: &mut Touched)
    requires name { blank.name ≡ L.name }
    requires parts { blank.parts ≡ L.parts }
    requires some { 0 < blank.parts }
    requires words { length words.old.list ≡ code.now.words }
    requires touched { code.now.words ≤ touched.old.size }
    ensures { length words.new.list ≡ length words.old.list }
{
    let mut steps: Steps<L> = Steps::new(blank);
    run(code, words, 100, touched, &mut steps);
}

/// Verifies code of about `count` instructions `times` times, and answers how often it was
/// accepted.
pub fn verify_often(alloc: Global, count: u32, times: u32) -> Result<u32, AllocError> {
    let mut accepted = 0;
    for _ in 0..times {
        let code = branches(alloc, count)?;
        if Code::verify(code, LOOP_WORDS).is_ok() && accepted < times {
            accepted += 1;
        }
    }
    Ok(accepted)
}
