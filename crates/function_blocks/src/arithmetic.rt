ghost use Rattle.std.specs.Prelude.{◌≡◌, ◌≤ℤ◌};
ghost use Rattle.function_blocks.specs.Arithmetic.{exact, quotient, remainder, bounded};
ghost use Rattle.function_blocks.specs.Values.{IsOperand};

use crate::kinds::{Kind, clamp_to};

/// A computed number.
#[derive(Clone, Copy, Debug, PartialEq, Eq)]
pub struct Computed {
    /// The number, in the range of what it was computed for.
    pub value: i64,
    /// Whether the exact number lay outside that range, or did not exist.
    pub flag: bool,
}

/// A number, clamped to the kind with a flag.
#[inline]
pub fn exact(kind: Kind, value: i64) -> Computed
    ensures value { result ≡ exact kind value }
    ensures operand { IsOperand result.value }
{
    let clamped = clamp_to(kind, value);
    Computed {
        value: clamped,
        flag: clamped != value,
    }
}

/// The quotient, truncated toward zero and clamped to the kind with a flag; 0 with a flag where the
/// divisor is 0.
#[inline]
pub fn quotient(kind: Kind, dividend: i64, divisor: i64) -> Computed
    requires dividend { IsOperand dividend }
    requires divisor { IsOperand divisor }
    ensures value { result ≡ quotient kind dividend divisor }
    ensures operand { IsOperand result.value }
{
    if divisor == 0 {
        Computed {
            value: 0,
            flag: true,
        }
    } else {
        exact(kind, dividend / divisor)
    }
}

/// What the truncated quotient leaves, clamped to the kind with a flag; 0 with a flag where the
/// divisor is 0.
#[inline]
pub fn remainder(kind: Kind, dividend: i64, divisor: i64) -> Computed
    requires dividend { IsOperand dividend }
    requires divisor { IsOperand divisor }
    ensures value { result ≡ remainder kind dividend divisor }
    ensures operand { IsOperand result.value }
{
    if divisor == 0 {
        Computed {
            value: 0,
            flag: true,
        }
    } else {
        exact(kind, dividend % divisor)
    }
}

/// An index, clamped to the bounds of its array with a flag.
#[inline]
pub fn bounded(low: i64, high: i64, index: i64) -> Computed
    requires { low ≤ℤ high }
    ensures value { result ≡ bounded low high index }
    ensures from { low ≤ℤ result.value }
    ensures to { result.value ≤ℤ high }
{
    let clamped = index.clamp(low, high);
    Computed {
        value: clamped,
        flag: clamped != index,
    }
}
