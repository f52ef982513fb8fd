// The instructions that work on operands alone. Each says whether a number was clamped.

ghost use Rattle.std.specs.Prelude.{◌≡◌, ◌<◌, ◌≤◌, ◌+◌};
ghost use Rattle.scan_machine.specs.Inner.Waiting.{Operates};

use crate::clamping::{exact, quotient, remainder};
use crate::instructions::Instr;
use crate::stack::{Places, pop, pop_two, push, push_computed, push_truth};
use function_blocks::{Kind, is_on};

/// Turns the sign.
#[inline(always)]
pub(crate) fn negate(kind: Kind, places: &mut Places, depth: &mut usize) -> bool
    requires operands { 1 ≤ depth.old }
    requires within { depth.old ≤ 1024 }
    ensures value { Operates (Instr.Neg kind) places.old depth.old places.new depth.new result }
    ensures depth { depth.new ≡ depth.old }
{
    let x = pop(places, depth);
    push_computed(places, depth, exact(kind, -x))
}

/// Takes the sign away.
#[inline(always)]
pub(crate) fn absolute(kind: Kind, places: &mut Places, depth: &mut usize) -> bool
    requires operands { 1 ≤ depth.old }
    requires within { depth.old ≤ 1024 }
    ensures value { Operates (Instr.Abs kind) places.old depth.old places.new depth.new result }
    ensures depth { depth.new ≡ depth.old }
{
    let x = pop(places, depth);
    push_computed(places, depth, exact(kind, x.abs()))
}

/// Clamps to another kind.
#[inline(always)]
pub(crate) fn convert(kind: Kind, places: &mut Places, depth: &mut usize) -> bool
    requires operands { 1 ≤ depth.old }
    requires within { depth.old ≤ 1024 }
    ensures value { Operates (Instr.Convert kind) places.old depth.old places.new depth.new result }
    ensures depth { depth.new ≡ depth.old }
{
    let x = pop(places, depth);
    push_computed(places, depth, exact(kind, x))
}

/// Whether the operand is FALSE.
#[inline(always)]
pub(crate) fn invert(places: &mut Places, depth: &mut usize) -> bool
    requires operands { 1 ≤ depth.old }
    requires within { depth.old ≤ 1024 }
    ensures value { Operates Instr.Not places.old depth.old places.new depth.new result }
    ensures depth { depth.new ≡ depth.old }
{
    let x = pop(places, depth);
    push_truth(places, depth, !is_on(x))
}

/// Whether the operand lies from the first number to the second.
#[inline(always)]
pub(crate) fn lies(low: i64, high: i64, places: &mut Places, depth: &mut usize) -> bool
    requires operands { 1 ≤ depth.old }
    requires within { depth.old ≤ 1024 }
    ensures value { Operates (Instr.Within low high) places.old depth.old places.new depth.new result }
    ensures depth { depth.new ≡ depth.old }
{
    let x = pop(places, depth);
    push_truth(places, depth, low <= x && x <= high)
}

/// Adds two operands.
#[inline(always)]
pub(crate) fn add(kind: Kind, places: &mut Places, depth: &mut usize) -> bool
    requires operands { 2 ≤ depth.old }
    requires within { depth.old ≤ 1024 }
    ensures value { Operates (Instr.Add kind) places.old depth.old places.new depth.new result }
    ensures depth { depth.new + 1 ≡ depth.old }
{
    let (x, y) = pop_two(places, depth);
    push_computed(places, depth, exact(kind, x + y))
}

/// Subtracts the operand on top from the one below.
#[inline(always)]
pub(crate) fn subtract(kind: Kind, places: &mut Places, depth: &mut usize) -> bool
    requires operands { 2 ≤ depth.old }
    requires within { depth.old ≤ 1024 }
    ensures value { Operates (Instr.Sub kind) places.old depth.old places.new depth.new result }
    ensures depth { depth.new + 1 ≡ depth.old }
{
    let (x, y) = pop_two(places, depth);
    push_computed(places, depth, exact(kind, x - y))
}

/// Multiplies two operands.
#[inline(always)]
pub(crate) fn multiply(kind: Kind, places: &mut Places, depth: &mut usize) -> bool
    requires operands { 2 ≤ depth.old }
    requires within { depth.old ≤ 1024 }
    ensures value { Operates (Instr.Mul kind) places.old depth.old places.new depth.new result }
    ensures depth { depth.new + 1 ≡ depth.old }
{
    let (x, y) = pop_two(places, depth);
    push_computed(places, depth, exact(kind, x * y))
}

/// Divides by the operand on top.
#[inline(always)]
pub(crate) fn divide(kind: Kind, places: &mut Places, depth: &mut usize) -> bool
    requires operands { 2 ≤ depth.old }
    requires within { depth.old ≤ 1024 }
    ensures value { Operates (Instr.Div kind) places.old depth.old places.new depth.new result }
    ensures depth { depth.new + 1 ≡ depth.old }
{
    let (x, y) = pop_two(places, depth);
    push_computed(places, depth, quotient(kind, x, y))
}

/// Gives what a division leaves.
#[inline(always)]
pub(crate) fn modulo(kind: Kind, places: &mut Places, depth: &mut usize) -> bool
    requires operands { 2 ≤ depth.old }
    requires within { depth.old ≤ 1024 }
    ensures value { Operates (Instr.Mod kind) places.old depth.old places.new depth.new result }
    ensures depth { depth.new + 1 ≡ depth.old }
{
    let (x, y) = pop_two(places, depth);
    push_computed(places, depth, remainder(kind, x, y))
}

/// Gives the lesser operand.
#[inline(always)]
pub(crate) fn least(kind: Kind, places: &mut Places, depth: &mut usize) -> bool
    requires operands { 2 ≤ depth.old }
    requires within { depth.old ≤ 1024 }
    ensures value { Operates (Instr.Min kind) places.old depth.old places.new depth.new result }
    ensures depth { depth.new + 1 ≡ depth.old }
{
    let (x, y) = pop_two(places, depth);
    push_computed(places, depth, exact(kind, x.min(y)))
}

/// Gives the greater operand.
#[inline(always)]
pub(crate) fn greatest(kind: Kind, places: &mut Places, depth: &mut usize) -> bool
    requires operands { 2 ≤ depth.old }
    requires within { depth.old ≤ 1024 }
    ensures value { Operates (Instr.Max kind) places.old depth.old places.new depth.new result }
    ensures depth { depth.new + 1 ≡ depth.old }
{
    let (x, y) = pop_two(places, depth);
    push_computed(places, depth, exact(kind, x.max(y)))
}

/// Whether both operands are TRUE.
#[inline(always)]
pub(crate) fn both(places: &mut Places, depth: &mut usize) -> bool
    requires operands { 2 ≤ depth.old }
    requires within { depth.old ≤ 1024 }
    ensures value { Operates Instr.And places.old depth.old places.new depth.new result }
    ensures depth { depth.new + 1 ≡ depth.old }
{
    let (x, y) = pop_two(places, depth);
    push_truth(places, depth, is_on(x) && is_on(y))
}

/// Whether an operand is TRUE.
#[inline(always)]
pub(crate) fn either(places: &mut Places, depth: &mut usize) -> bool
    requires operands { 2 ≤ depth.old }
    requires within { depth.old ≤ 1024 }
    ensures value { Operates Instr.Or places.old depth.old places.new depth.new result }
    ensures depth { depth.new + 1 ≡ depth.old }
{
    let (x, y) = pop_two(places, depth);
    push_truth(places, depth, is_on(x) || is_on(y))
}

/// Whether one operand alone is TRUE.
#[inline(always)]
pub(crate) fn one_alone(places: &mut Places, depth: &mut usize) -> bool
    requires operands { 2 ≤ depth.old }
    requires within { depth.old ≤ 1024 }
    ensures value { Operates Instr.Xor places.old depth.old places.new depth.new result }
    ensures depth { depth.new + 1 ≡ depth.old }
{
    let (x, y) = pop_two(places, depth);
    push_truth(places, depth, is_on(x) != is_on(y))
}

/// Whether the operands are equal.
#[inline(always)]
pub(crate) fn equal(places: &mut Places, depth: &mut usize) -> bool
    requires operands { 2 ≤ depth.old }
    requires within { depth.old ≤ 1024 }
    ensures value { Operates Instr.Eq places.old depth.old places.new depth.new result }
    ensures depth { depth.new + 1 ≡ depth.old }
{
    let (x, y) = pop_two(places, depth);
    push_truth(places, depth, x == y)
}

/// Whether they differ.
#[inline(always)]
pub(crate) fn unequal(places: &mut Places, depth: &mut usize) -> bool
    requires operands { 2 ≤ depth.old }
    requires within { depth.old ≤ 1024 }
    ensures value { Operates Instr.Ne places.old depth.old places.new depth.new result }
    ensures depth { depth.new + 1 ≡ depth.old }
{
    let (x, y) = pop_two(places, depth);
    push_truth(places, depth, x != y)
}

/// Whether the first is below the second.
#[inline(always)]
pub(crate) fn below(places: &mut Places, depth: &mut usize) -> bool
    requires operands { 2 ≤ depth.old }
    requires within { depth.old ≤ 1024 }
    ensures value { Operates Instr.Lt places.old depth.old places.new depth.new result }
    ensures depth { depth.new + 1 ≡ depth.old }
{
    let (x, y) = pop_two(places, depth);
    push_truth(places, depth, x < y)
}

/// Whether the first is above the second.
#[inline(always)]
pub(crate) fn above(places: &mut Places, depth: &mut usize) -> bool
    requires operands { 2 ≤ depth.old }
    requires within { depth.old ≤ 1024 }
    ensures value { Operates Instr.Gt places.old depth.old places.new depth.new result }
    ensures depth { depth.new + 1 ≡ depth.old }
{
    let (x, y) = pop_two(places, depth);
    push_truth(places, depth, x > y)
}

/// Whether the first isn't above the second.
#[inline(always)]
pub(crate) fn at_most(places: &mut Places, depth: &mut usize) -> bool
    requires operands { 2 ≤ depth.old }
    requires within { depth.old ≤ 1024 }
    ensures value { Operates Instr.Le places.old depth.old places.new depth.new result }
    ensures depth { depth.new + 1 ≡ depth.old }
{
    let (x, y) = pop_two(places, depth);
    push_truth(places, depth, x <= y)
}

/// Whether the first isn't below the second.
#[inline(always)]
pub(crate) fn at_least(places: &mut Places, depth: &mut usize) -> bool
    requires operands { 2 ≤ depth.old }
    requires within { depth.old ≤ 1024 }
    ensures value { Operates Instr.Ge places.old depth.old places.new depth.new result }
    ensures depth { depth.new + 1 ≡ depth.old }
{
    let (x, y) = pop_two(places, depth);
    push_truth(places, depth, x >= y)
}

/// Limits the second of three operands to the other two.
#[inline(always)]
pub(crate) fn limit(places: &mut Places, depth: &mut usize) -> bool
    requires operands { 3 ≤ depth.old }
    requires within { depth.old ≤ 1024 }
    ensures value { Operates Instr.Limit places.old depth.old places.new depth.new result }
    ensures depth { depth.new + 2 ≡ depth.old }
{
    let (value, greatest) = pop_two(places, depth);
    let least = pop(places, depth);
    push(places, depth, value.max(least).min(greatest));
    false
}

/// Selects one of two operands by the one below them.
#[inline(always)]
pub(crate) fn select(places: &mut Places, depth: &mut usize) -> bool
    requires operands { 3 ≤ depth.old }
    requires within { depth.old ≤ 1024 }
    ensures value { Operates Instr.Select places.old depth.old places.new depth.new result }
    ensures depth { depth.new + 2 ≡ depth.old }
{
    let (first, second) = pop_two(places, depth);
    let chosen = if is_on(pop(places, depth)) {
        second
    } else {
        first
    };
    push(places, depth, chosen);
    false
}
