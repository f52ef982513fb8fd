//! Numbers as far as a limit.

ghost use Rattle.std.specs.Prelude.{◌≡◌, ◌*◌, ℕ, max};
ghost use Rattle.code_size.specs.Limits.{limited};
ghost use Rattle.code_size.specs.Inner.Sums.{Adds};

/// The greatest number of instructions that is told.
pub const TOLD_LIMIT: usize = 9_223_372_036_854_775_807;

/// A sum, as far as the limit.
pub(crate) fn plus(first: usize, second: usize) -> usize
    ensures { Adds first second result }
{
    let sum = first.saturating_add(second);
    if sum > TOLD_LIMIT { TOLD_LIMIT } else { sum }
}

/// A product, as far as the limit.
pub(crate) fn times(first: usize, second: usize) -> usize
    ensures { (x : ℕ) → (y : ℕ) → first ≡ limited x → second ≡ limited y
        → result ≡ limited (x * y) }
{
    let product = first.saturating_mul(second);
    if product > TOLD_LIMIT {
        TOLD_LIMIT
    } else {
        product
    }
}

/// The greater of two numbers.
pub(crate) fn greater(first: usize, second: usize) -> usize
    ensures { (x : ℕ) → (y : ℕ) → first ≡ limited x → second ≡ limited y
        → result ≡ limited (max x y) }
{
    if first > second { first } else { second }
}
