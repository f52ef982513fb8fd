// The instructions that may go elsewhere than to the next place. Each answers where, if it does.

ghost use Rattle.std.specs.Prelude.{ℕ, ℤ, Bool, List, ◌≡◌, ◌<◌, ◌≤◌, ◌+◌, ◌^◌, Some, length};
ghost use Rattle.scan_machine.specs.Rules.{HasWords, HasConstants};
ghost use Rattle.scan_machine.specs.Machine.{does, is_past};
ghost use Rattle.scan_machine.specs.Inner.Waiting.{waiting, here, landed};
ghost use Rattle.tri_base.specs.Noted.{TouchedValue};
ghost use Rattle.scan_machine.specs.Inner.Groups.{IsNext};

use crate::clamping::clamp_to;
use crate::instructions::Instr;
use crate::memory::put;
use crate::stack::{Places, pop};
use function_blocks::is_on;
use tri_base::Touched;

/// Pops an operand, and goes to the target where it is FALSE.
#[inline(always)]
pub(crate) fn jump_false(target: usize, places: &Places, depth: &mut usize) -> Option<usize>
    requires some { 0 < depth.old }
    requires held { depth.old ≤ 1024 }
    ensures value { (dt : ℤ) → (index : ℕ) → (words : List ℤ) → (was : Bool) → (t : TouchedValue)
        → does dt (Instr.JumpFalse target) (here index places.now depth.old words was t)
        ≡ Some (here (landed (index + 1) result) places.now depth.new words was t) }
    ensures depth { depth.new + 1 ≡ depth.old }
{
    if is_on(pop(places, depth)) {
        None
    } else {
        Some(target)
    }
}

/// Does a Next.
#[inline(always)]
pub(crate) fn turn(instr: &Instr, words: &mut [i64], touched: &mut Touched) -> Option<usize>
    requires kind { IsNext instr.now }
    requires words { HasWords (length words.old) instr.now }
    requires constants { HasConstants instr.now }
    requires touched { length words.old ≤ touched.old.size }
    ensures value { (dt : ℤ) → (index : ℕ) → (places : List ℤ) → (depth : ℕ) → (was : Bool)
        → does dt instr.now (here index places depth words.old was touched.old)
        ≡ Some (here (landed (index + 1) result) places depth words.new was touched.new) }
    ensures size { touched.new.size ≡ touched.old.size }
{
    match *instr {
        Instr::Next {
            address,
            kind,
            step,
            last,
            back,
        } => {
            let sum = clamp_to(kind, words[address]) + step;
            if is_past(step, last, sum) {
                None
            } else {
                put(words, touched, address, sum);
                Some(back)
            }
        }
        _ => unreachable!(),
    }
}

// Whether a sum is past the last value, in the direction of the step.
#[inline(always)]
fn is_past(step: i64, last: i64, sum: i64) -> bool
    ensures { result ≡ is_past step last sum }
{
    if step > 0 { sum > last } else { sum < last }
}
