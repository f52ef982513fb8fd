// Each rule of verified code, asked of one instruction.

ghost use Rattle.std.specs.Prelude.{◌≡◌, ◌+◌, ◌<◌, ◌≤◌, ◌↔◌, ℕ, length, slice_get, IsTrue, IfSome};
ghost use Rattle.scan_machine.specs.Rules.{HasWords, HasConstants, HasTarget, HasDepth, HasLoop, IsOf, AreBounds, EmptiesStack, StoresTo};
ghost use Rattle.scan_machine.specs.Inner.Reaches.{Lies, store_reach};
ghost use Rattle.function_blocks.specs.Values.{IsOperand, least, greatest};
ghost use Rattle.scan_machine.specs.Inner.Loops.{StartsFrom, IsAlone};
ghost use Rattle.scan_machine.specs.Inner.FirstFault.{HaveTargets};

use crate::instructions::Instr;
use function_blocks::Kind;

/// Whether all words that the instruction can touch are there.
pub(crate) fn has_words(instr: &Instr, words: usize) -> bool
    ensures { IsTrue result ↔ HasWords words instr.now }
{
    match instr.reach() {
        Some((first, more)) => are_there(first, more, words),
        None => true,
    }
}

// Whether a word and so many behind it are there.
fn are_there(first: usize, more: usize, words: usize) -> bool
    ensures { IsTrue result ↔ (first + more < words) }
{
    more < words && first < words - more
}

/// Whether the instruction's constants lie in their ranges.
pub(crate) fn has_constants(instr: &Instr) -> bool
    ensures { IsTrue result ↔ HasConstants instr.now }
{
    match *instr {
        Instr::Push(value) => is_operand(value),
        Instr::Within(low, high) => is_operand(low) && is_operand(high),
        Instr::Next {
            kind,
            step,
            last,
            ..
        } => is_of(kind, step) && is_of(kind, last) && step != 0,
        Instr::LoadAt { low, high, .. } => are_bounds(low, high),
        Instr::StoreAt { low, high, .. } => are_bounds(low, high),
        _ => true,
    }
}

// Whether a number lies in the range of a constant.
fn is_operand(value: i64) -> bool
    ensures { IsTrue result ↔ IsOperand value }
{
    -2_147_483_648 <= value && value <= 2_147_483_648
}

// Whether a number is a value of the kind.
fn is_of(kind: Kind, value: i64) -> bool
    ensures { IsTrue result ↔ IsOf kind value }
{
    match kind {
        Kind::Bool => 0 <= value && value <= 1,
        Kind::Int => -32_768 <= value && value <= 32_767,
        Kind::Dint => -2_147_483_648 <= value && value <= 2_147_483_647,
    }
}

// Whether two numbers are the bounds of an array.
fn are_bounds(low: i64, high: i64) -> bool
    ensures { IsTrue result ↔ AreBounds low high }
{
    low <= high && -2_147_483_648 <= low && high <= 2_147_483_647
}

/// Whether the instruction goes to a place where it may go.
pub(crate) fn has_target(instr: &Instr, place: usize, count: usize) -> bool
    ensures { IsTrue result ↔ HasTarget count place instr.now }
{
    match *instr {
        Instr::Jump(target) => place < target && target <= count,
        Instr::JumpFalse(target) => place < target && target <= count,
        Instr::Next { back, .. } => back <= place,
        _ => true,
    }
}

/// Whether the instruction jumps or counts a loop.
pub(crate) fn empties_stack(instr: &Instr) -> bool
    ensures { IsTrue result ↔ EmptiesStack instr.now }
{
    matches!(
        instr,
        Instr::Jump(_) | Instr::JumpFalse(_) | Instr::Next { .. }
    )
}

/// Whether the instruction has its operands and room for what it pushes, where so many wait.
pub(crate) fn has_depth(instr: &Instr, depth: usize) -> bool
    requires { depth ≤ 1024 }
    ensures { IsTrue result ↔ HasDepth depth instr.now }
{
    let takes = instr.takes();
    if takes > depth || depth - takes + instr.gives() > 1024 {
        return false;
    }
    !empties_stack(instr) || depth == takes
}

/// Whether the loop of the instruction, if it has one, stands alone with its word and nests.
pub(crate) fn has_loop(code: &[Instr], place: usize) -> bool
    requires place { place < length code.now }
    requires targets { HaveTargets code.now place }
    ensures { IsTrue result ↔ IfSome (slice_get code.now place) (HasLoop code.now place) }
{
    match code[place] {
        Instr::Next { address, back, .. } => is_alone(code, address, back, place),
        _ => true,
    }
}

// Whether from `back` on no instruction before the place stores to the word or goes back further.
fn is_alone(code: &[Instr], address: usize, back: usize, place: usize) -> bool
    requires place { place ≤ length code.now }
    ensures { IsTrue result ↔ IsAlone code.now address back place }
{
    for at in back..place {
        if stores_to(&code[at], address) || !starts_from(&code[at], back) {
            return false;
        }
    }
    true
}

// Whether the instruction can store to the word.
fn stores_to(instr: &Instr, word: usize) -> bool
    ensures { IsTrue result ↔ StoresTo instr.now word }
{
    lies(word, instr.store_reach())
}

// Whether the word is one of those from the first one on.
fn lies(word: usize, reach: Option<(usize, usize)>) -> bool
    ensures { IsTrue result ↔ Lies word reach }
{
    match reach {
        Some((first, more)) => first <= word && word - first <= more,
        None => false,
    }
}

// Whether the instruction goes back no further than to `back`.
fn starts_from(instr: &Instr, back: usize) -> bool
    ensures { IsTrue result ↔ StartsFrom back instr.now }
{
    match *instr {
        Instr::Next { back: start, .. } => back <= start,
        _ => true,
    }
}
