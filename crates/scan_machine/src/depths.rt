// How many operands wait before an instruction.

ghost use Rattle.std.specs.Prelude.{◌≡◌, ◌+◌, ◌-◌, ◌<◌, ◌≤◌, length};
ghost use Rattle.scan_machine.specs.Rules.{depth_after, depth_at};
ghost use Rattle.scan_machine.specs.Inner.FirstFault.{HaveDepths, IsLoaded, HaveEmptyTargets, NamesEmpty};

use crate::instructions::Instr;
use crate::rules::{empties_stack, has_target};

/// How many operands wait after an instruction, where so many waited before it.
pub(crate) fn depth_after(depth: usize, instr: &Instr) -> usize
    requires { depth ≤ 1024 }
    ensures { result ≡ depth_after depth instr.now }
{
    match instr {
        Instr::Jump(_) => 0,
        _ => depth.saturating_sub(instr.takes()) + instr.gives(),
    }
}

// How many operands wait before the instruction at a place. None waits behind a jump or a Next, so
// it is enough to count from the last one.
fn depth_at(code: &[Instr], place: usize) -> usize
    requires place { place ≤ length code.now }
    requires depths { HaveDepths code.now place }
    ensures { result ≡ depth_at code.now place }
{
    let start = stretch_start(code, place);
    let mut depth = 0;
    for at in start..place {
        depth = depth_after(depth, &code[at]);
    }
    depth
}

// The place behind the last jump or Next before a place, or the first place.
fn stretch_start(code: &[Instr], place: usize) -> usize
    requires place { place ≤ length code.now }
    requires depths { HaveDepths code.now place }
    ensures within { result ≤ place }
    ensures empty { depth_at code.now result ≡ 0 }
{
    let mut start = place;
    while start > 0 && !empties_stack(&code[start - 1]) {
        start -= 1;
    }
    start
}

/// The first target before the bound at which an operand waits, or the bound.
pub(crate) fn first_loaded(code: &[Instr], bound: usize) -> usize
    requires bound { bound ≤ length code.now + 1 }
    requires depths { HaveDepths code.now (bound - 1) }
    ensures within { result ≤ bound }
    ensures loaded { result < bound → IsLoaded code.now result }
    ensures before { HaveEmptyTargets code.now result }
{
    let mut first = bound;
    for at in 0..code.len() {
        first = sooner_loaded(code, at, first);
    }
    first
}

// The target that an instruction names, where it lies before `first` and an operand waits there;
// else `first`.
fn sooner_loaded(code: &[Instr], at: usize, first: usize) -> usize
    requires at { at < length code.now }
    requires first { first ≤ length code.now + 1 }
    requires depths { HaveDepths code.now (first - 1) }
    ensures within { result ≤ first }
    ensures loaded { result < first → IsLoaded code.now result }
    ensures before { NamesEmpty code.now result at }
{
    let instr = &code[at];
    match instr.named() {
        Some(target) => {
            if target < first && has_target(instr, at, code.len()) && depth_at(code, target) > 0 {
                target
            } else {
                first
            }
        }
        None => first,
    }
}
