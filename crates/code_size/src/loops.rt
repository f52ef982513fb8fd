//! The numbers of FOR.

ghost use Rattle.std.specs.Prelude.{◌≡◌, ◌+◌, ◌/◌, ◌-ℤ◌, max, unsigned_abs};
ghost use Rattle.st_tree.specs.Integers.{integer_value};
ghost use Rattle.st_core.specs.Effects.{is_past};
ghost use Rattle.st_meaning.specs.Statements as meaning;
ghost use Rattle.code_size.specs.Limits.{limited};

use crate::limits::TOLD_LIMIT;
use st_tree::Integer;

/// The step of a loop, 1 where none is written.
pub fn step_of(step: Option<Integer>) -> i64
    ensures { result ≡ meaning.step_of step }
{
    match step {
        None => 1,
        Some(step) => step.value(),
    }
}

// Whether a number is past the last one, in the direction of the step.
fn is_past(step: i64, last: i64, value: i64) -> bool
    ensures { result ≡ is_past step last value }
{
    if step > 0 { value > last } else { value < last }
}

/// Whether a loop has no turn.
pub fn has_no_turn(first: Integer, last: Integer, step: Option<Integer>) -> bool
    ensures { result ≡ is_past (meaning.step_of step) (integer_value last) (integer_value first) }
{
    is_past(step_of(step), last.value(), first.value())
}

/// How many turns a loop has that has one.
pub(crate) fn turn_count(first: Integer, last: Integer, step: Option<Integer>) -> usize
    ensures { let distance = unsigned_abs (integer_value last -ℤ integer_value first) in
        result ≡ limited (distance / max 1 (unsigned_abs (meaning.step_of step)) + 1) }
{
    let distance = last.value().abs_diff(first.value());
    let size = step_of(step).unsigned_abs();
    let divisor = if size > 1 { size } else { 1 };
    let more = (distance / divisor) as usize;
    if more >= TOLD_LIMIT {
        TOLD_LIMIT
    } else {
        more + 1
    }
}
