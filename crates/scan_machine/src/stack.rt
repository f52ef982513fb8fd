// The operand stack: the places that operands stand at, and how many wait. The number that wait is
// no part of `Places`, so that a run can keep it in a register.

ghost use Rattle.std.specs.Prelude.{◌≡◌, ◌<◌, ◌≤◌, ◌+◌, ◌∷◌, false};
ghost use Rattle.function_blocks.specs.Values.{IsOperand, number};
ghost use Rattle.scan_machine.specs.Inner.Waiting.{waiting};

use arrayvec::ArrayVec;
use function_blocks::Computed;
use std::marker::Model;

/// How many operands wait at most.
pub(crate) const DEPTH: usize = 1024;

/// The places of the operands, the lowest first. They take no memory.
#[derive(Drop)]
pub(crate) struct Places {
    items: ArrayVec<i64, DEPTH>,
}

impl Model for Places {
    ghost use Rattle.std.specs.Prelude.{ℤ, List};
    ghost use Rattle.scan_machine.specs.Inner.Waiting.{ArePlaces};

    ghost Value = { List ℤ };

    ghost view = { λ s. s.items.items };

    ghost invariant = { λ s. ArePlaces s.items.items };
}

impl Places {
    ghost use Rattle.std.specs.Prelude.{◌≡◌, ◌<◌, pos, length, slice_set, slice_index_or};
    ghost use Rattle.function_blocks.specs.Values.{IsOperand};

    /// Places where 0 stands.
    pub fn new() -> Self {
        Places {
            items: ArrayVec::from([0; DEPTH]),
        }
    }

    /// Puts an operand at a place.
    #[inline(always)]
    fn put(&mut self, place: usize, value: i64)
        requires place { place < 1024 }
        requires operand { IsOperand value }
        ensures places { self.new ≡ slice_set self.old place value }
        ensures there { place < length self.old }
    {
        self.items.as_mut_slice()[place] = value;
    }

    /// The operand at a place.
    #[inline(always)]
    fn at(&self, place: usize) -> i64
        requires { place < 1024 }
        ensures value { result ≡ slice_index_or self.now place (pos 0) }
        ensures operand { IsOperand result }
    {
        self.items.as_slice()[place]
    }
}

/// One more operand.
#[inline(always)]
pub(crate) fn push(places: &mut Places, depth: &mut usize, value: i64)
    requires room { depth.old < 1024 }
    requires operand { IsOperand value }
    ensures stack { waiting places.new depth.new ≡ value ∷ waiting places.old depth.old }
    ensures depth { depth.new ≡ depth.old + 1 }
{
    places.put(*depth, value);
    *depth += 1;
}

/// The operand on top.
#[inline(always)]
pub(crate) fn pop(places: &Places, depth: &mut usize) -> i64
    requires some { 0 < depth.old }
    requires within { depth.old ≤ 1024 }
    ensures top { waiting places.now depth.old ≡ result ∷ waiting places.now depth.new }
    ensures depth { depth.new + 1 ≡ depth.old }
    ensures operand { IsOperand result }
{
    *depth -= 1;
    places.at(*depth)
}

/// The two operands on top, the last one second.
#[inline(always)]
pub(crate) fn pop_two(places: &Places, depth: &mut usize) -> (i64, i64)
    requires some { 2 ≤ depth.old }
    requires within { depth.old ≤ 1024 }
    ensures top { waiting places.now depth.old ≡ result.1 ∷ result.0 ∷ waiting places.now depth.new }
    ensures depth { depth.new + 2 ≡ depth.old }
    ensures first { IsOperand result.0 }
    ensures second { IsOperand result.1 }
{
    let y = pop(places, depth);
    let x = pop(places, depth);
    (x, y)
}

/// One more operand, which was computed, and whether it was clamped.
#[inline(always)]
pub(crate) fn push_computed(places: &mut Places, depth: &mut usize, computed: Computed) -> bool
    requires room { depth.old < 1024 }
    requires operand { IsOperand computed.value }
    ensures stack { waiting places.new depth.new ≡ computed.value ∷ waiting places.old depth.old }
    ensures flag { result ≡ computed.flag }
    ensures depth { depth.new ≡ depth.old + 1 }
{
    push(places, depth, computed.value);
    computed.flag
}

/// One more operand: 1 or 0. It isn't clamped.
#[inline(always)]
pub(crate) fn push_truth(places: &mut Places, depth: &mut usize, truth: bool) -> bool
    requires room { depth.old < 1024 }
    ensures stack { waiting places.new depth.new ≡ number truth ∷ waiting places.old depth.old }
    ensures flag { result ≡ false }
    ensures depth { depth.new ≡ depth.old + 1 }
{
    push(places, depth, i64::from(truth));
    false
}
