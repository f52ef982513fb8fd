ghost use Rattle.std.specs.Prelude.{◌≡◌, ℕ, ◌≤◌, ◌+◌, ◌≤ℤ◌, pos, length};
ghost use Rattle.scan_machine.specs.Rules.{IsVerified};
ghost use Rattle.scan_machine.specs.Machine.{Memory, Runs};

use crate::counting::Steps;
use crate::instructions::Instr;
use crate::machine::{landed, step};
use crate::stack::Places;
use crate::verified::Code;
use std::sync::ledger::Ledger;
use tri_base::{Touched, Words};

/// Runs code on words, in a scan of `dt` milliseconds, and says whether a computed number was
/// clamped. The stores are noted, each address once with the number that stood there before.
/// `steps` counts the instructions. It takes no memory.
pub fn run<L: Ledger>(
    code: &Code,
    words: &mut Words,
    dt: i64,
    touched: &mut Touched,
    steps: &mut Steps<L>,
) -> bool
    requires words { length words.old.list ≡ code.now.words }
    requires from { pos 0 ≤ℤ dt }
    requires to { dt ≤ℤ pos 10_000 }
    requires touched { code.now.words ≤ touched.old.size }
    ensures ran { let before : Memory = record { words = words.old.list; stores = touched.old.pairs } in
        let after : Memory = record { words = words.new.list; stores = touched.new.pairs } in
        (count : ℕ)
        × Runs code.now.list dt before (record { memory = after; flag = result; count = count })
        × (steps.new ≡ steps.old + count) }
    ensures length { length words.new.list ≡ length words.old.list }
    ensures spare { words.new.spare ≡ words.old.spare }
    ensures size { touched.new.size ≡ touched.old.size }
{
    let instructions = code.instructions();
    run_on(instructions, words.items_mut(), dt, touched, steps)
}

// Runs instructions on words that they were verified for.
#[inline(never)]
fn run_on<L: Ledger>(
    code: &[Instr],
    words: &mut [i64],
    dt: i64,
    touched: &mut Touched,
    steps: &mut Steps<L>,
) -> bool
    requires verified { IsVerified code.now (length words.old) }
    requires from { pos 0 ≤ℤ dt }
    requires to { dt ≤ℤ pos 10_000 }
    requires touched { length words.old ≤ touched.old.size }
    ensures ran { let before : Memory = record { words = words.old; stores = touched.old.pairs } in
        let after : Memory = record { words = words.new; stores = touched.new.pairs } in
        (count : ℕ)
        × Runs code.now dt before (record { memory = after; flag = result; count = count })
        × (steps.new ≡ steps.old + count) }
    ensures size { touched.new.size ≡ touched.old.size }
{
    let mut places = Places::new();
    let mut depth = 0;
    let mut flag = false;
    let mut index = 0;
    while index < code.len() {
        steps.tick();
        let behind = index + 1;
        let jump = step(
            &code[index],
            dt,
            words,
            touched,
            &mut places,
            &mut depth,
            &mut flag,
        );
        index = landed(behind, jump);
    }
    flag
}
