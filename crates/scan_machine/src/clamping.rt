// Numbers as values of a kind. A number that is one already is left as it is by two comparisons
// with a table, whatever the kind is; it is nearly always one.

ghost use Rattle.std.specs.Prelude.{◌≡◌, ◌↔◌, IsTrue};
ghost use Rattle.function_blocks.specs.Values.{least, greatest, clamped, IsOperand};
ghost use Rattle.function_blocks.specs.Arithmetic.{exact, quotient, remainder};
ghost use Rattle.scan_machine.specs.Rules.{IsOf};
ghost use Rattle.scan_machine.specs.Inner.Kinds.{place_of};

use function_blocks::{Computed, Kind};

// The least value of each kind, in the kinds' order, and then the greatest of each.
static BOUNDS: [i64; 6] = [0, -32_768, -2_147_483_648, 1, 32_767, 2_147_483_647];

/// The number as a value of the kind.
#[inline(always)]
pub(crate) fn clamp_to(kind: Kind, value: i64) -> i64
    ensures value { result ≡ clamped kind value }
    ensures operand { IsOperand result }
{
    if is_of(kind, value) {
        value
    } else {
        nearest(kind, value)
    }
}

/// A computed number, clamped to the kind with a flag.
#[inline(always)]
pub(crate) fn exact(kind: Kind, value: i64) -> Computed
    ensures value { result ≡ exact kind value }
    ensures operand { IsOperand result.value }
{
    if is_of(kind, value) {
        Computed { value, flag: false }
    } else {
        outside(kind, value)
    }
}

/// The quotient, clamped to the kind with a flag; 0 with a flag where the divisor is 0.
#[inline(always)]
pub(crate) fn quotient(kind: Kind, dividend: i64, divisor: i64) -> Computed
    requires dividend { IsOperand dividend }
    requires divisor { IsOperand divisor }
    ensures value { result ≡ quotient kind dividend divisor }
    ensures operand { IsOperand result.value }
{
    if divisor == 0 {
        Computed {
            value: 0,
            flag: true,
        }
    } else {
        exact(kind, dividend / divisor)
    }
}

/// What the quotient leaves, clamped to the kind with a flag; 0 with a flag where the divisor is 0.
#[inline(always)]
pub(crate) fn remainder(kind: Kind, dividend: i64, divisor: i64) -> Computed
    requires dividend { IsOperand dividend }
    requires divisor { IsOperand divisor }
    ensures value { result ≡ remainder kind dividend divisor }
    ensures operand { IsOperand result.value }
{
    if divisor == 0 {
        Computed {
            value: 0,
            flag: true,
        }
    } else {
        exact(kind, dividend % divisor)
    }
}

// Whether the number is a value of the kind.
#[inline(always)]
fn is_of(kind: Kind, value: i64) -> bool
    ensures { IsTrue result ↔ IsOf kind value }
{
    least(kind) <= value && value <= greatest(kind)
}

// The least value of the kind.
#[inline(always)]
fn least(kind: Kind) -> i64
    ensures { result ≡ least kind }
{
    BOUNDS[place_of(kind)]
}

// The greatest value of the kind.
#[inline(always)]
fn greatest(kind: Kind) -> i64
    ensures { result ≡ greatest kind }
{
    BOUNDS[place_of(kind) + 3]
}

// The place of the kind in the table.
#[inline(always)]
fn place_of(kind: Kind) -> usize
    ensures { result ≡ place_of kind }
{
    match kind {
        Kind::Bool => 0,
        Kind::Int => 1,
        Kind::Dint => 2,
    }
}

// The value of the kind that is nearest to a number.
#[cold]
#[inline(never)]
fn nearest(kind: Kind, value: i64) -> i64
    ensures value { result ≡ clamped kind value }
    ensures operand { IsOperand result }
{
    function_blocks::clamp_to(kind, value)
}

// A computed number that may lie outside the kind.
#[cold]
#[inline(never)]
fn outside(kind: Kind, value: i64) -> Computed
    ensures value { result ≡ exact kind value }
    ensures operand { IsOperand result.value }
{
    function_blocks::exact(kind, value)
}
