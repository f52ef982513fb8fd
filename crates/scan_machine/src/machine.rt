// One instruction of the scan machine.

ghost use Rattle.std.specs.Prelude.{◌||◌, ◌≡◌, ◌<◌, ◌≤◌, ◌+◌, ◌^◌, ◌≤ℤ◌, pos, ℕ, None, Some, length};
ghost use Rattle.scan_machine.specs.Rules.{HasWords, HasConstants, takes, gives};
ghost use Rattle.scan_machine.specs.Machine.{does};
ghost use Rattle.scan_machine.specs.Inner.Waiting.{here, landed};

use crate::instructions::Instr;
use crate::jumps::{jump_false, turn};
use crate::memory::{call, constant, load, load_element, raise, store, store_element};
use crate::operations::{
    above, absolute, add, at_least, at_most, below, both, convert, divide, either, equal, greatest,
    invert, least, lies, limit, modulo, multiply, negate, one_alone, select, subtract, unequal,
};
use crate::stack::Places;
use tri_base::Touched;

/// Does one instruction, and answers the one that it jumps to; else the one behind comes next.
#[inline(always)]
pub(crate) fn step(
    instr: &Instr,
    dt: i64,
    words: &mut [i64],
    touched: &mut Touched,
    places: &mut Places,
    depth: &mut usize,
    flag: &mut bool,
) -> Option<usize>
    requires words { HasWords (length words.old) instr.now }
    requires constants { HasConstants instr.now }
    requires operands { takes instr.now ≤ depth.old }
    requires room { depth.old + gives instr.now ≤ 1024 + takes instr.now }
    requires held { depth.old ≤ 1024 }
    requires from { pos 0 ≤ℤ dt }
    requires to { dt ≤ℤ pos 10_000 }
    requires touched { length words.old ≤ touched.old.size }
    ensures value { (index : ℕ)
        → does dt instr.now (here index places.old depth.old words.old flag.old touched.old)
        ≡ Some (here (landed (index + 1) result)
        places.new depth.new words.new flag.new touched.new) }
    ensures depth { depth.new + takes instr.now ≡ depth.old + gives instr.now }
    ensures size { touched.new.size ≡ touched.old.size }
{
    match *instr {
        Instr::Push(value) => constant(value, places, depth),
        Instr::Load(address, kind) => load(address, kind, words, places, depth),
        Instr::Store(address, kind) => { store(address, kind, words, touched, places, depth) }
        Instr::LoadAt { .. } => load_element(instr, words, places, depth, flag),
        Instr::StoreAt { .. } => { store_element(instr, words, touched, places, depth, flag) }
        Instr::Add(kind) => go_on(flag, add(kind, places, depth)),
        Instr::Sub(kind) => go_on(flag, subtract(kind, places, depth)),
        Instr::Mul(kind) => go_on(flag, multiply(kind, places, depth)),
        Instr::Div(kind) => go_on(flag, divide(kind, places, depth)),
        Instr::Mod(kind) => go_on(flag, modulo(kind, places, depth)),
        Instr::Min(kind) => go_on(flag, least(kind, places, depth)),
        Instr::Max(kind) => go_on(flag, greatest(kind, places, depth)),
        Instr::Neg(kind) => go_on(flag, negate(kind, places, depth)),
        Instr::Abs(kind) => go_on(flag, absolute(kind, places, depth)),
        Instr::Convert(kind) => go_on(flag, convert(kind, places, depth)),
        Instr::Limit => go_on(flag, limit(places, depth)),
        Instr::Select => go_on(flag, select(places, depth)),
        Instr::And => go_on(flag, both(places, depth)),
        Instr::Or => go_on(flag, either(places, depth)),
        Instr::Xor => go_on(flag, one_alone(places, depth)),
        Instr::Eq => go_on(flag, equal(places, depth)),
        Instr::Ne => go_on(flag, unequal(places, depth)),
        Instr::Lt => go_on(flag, below(places, depth)),
        Instr::Gt => go_on(flag, above(places, depth)),
        Instr::Le => go_on(flag, at_most(places, depth)),
        Instr::Ge => go_on(flag, at_least(places, depth)),
        Instr::Not => go_on(flag, invert(places, depth)),
        Instr::Within(low, high) => go_on(flag, lies(low, high, places, depth)),
        Instr::Jump(target) => Some(target),
        Instr::JumpFalse(target) => jump_false(target, places, depth),
        Instr::Next { .. } => turn(instr, words, touched),
        Instr::Call(kind, address) => call(kind, address, dt, words, touched),
    }
}

// Goes on to the instruction behind, with the flag raised where a number was clamped.
#[inline(always)]
fn go_on(flag: &mut bool, clamped: bool) -> Option<usize>
    ensures next { result ≡ None }
    ensures flag { flag.new ≡ flag.old || clamped }
{
    raise(flag, clamped);
    None
}

/// The instruction that comes next: the one behind, or the one that is jumped to.
#[inline(always)]
pub(crate) fn landed(behind: usize, jump: Option<usize>) -> usize
    ensures { result ≡ landed behind jump }
{
    match jump {
        None => behind,
        Some(target) => target,
    }
}
