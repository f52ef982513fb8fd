//! The vote of three analogue readings.
#![tactic(auto)]

ghost use Rattle.std.specs.Prelude.{◌≡◌, ◌≤ℤ◌, [], ◌∷◌, Some};
ghost use Rattle.std.specs.Int.{int_min, int_max};
ghost use Rattle.vote_analog.specs.Middle.{AreCounts, IsCount, LiesBetween, LiesBetweenAny, deviates_of, is_off, mid_of, middle};

use tri_base::Triple;

pub mod laws;

/// The middle of three readings; of two readings the floor of their mean; of one that one; of none
/// 0. A reading is a count of 16 bits, and None is absent.
pub fn mid(readings: Triple<Option<i64>>) -> i64
    requires { AreCounts readings }
    ensures middle { result ≡ mid_of readings }
    ensures between { LiesBetweenAny readings result }
    ensures count { IsCount (Some result) }
{
    match (readings.a, readings.b, readings.c) {
        (Some(a), Some(b), Some(c)) => middle_of_three(a, b, c),
        (Some(a), Some(b), None) => mean(a, b),
        (Some(a), None, Some(c)) => mean(a, c),
        (None, Some(b), Some(c)) => mean(b, c),
        (Some(a), None, None) => a,
        (None, Some(b), None) => b,
        (None, None, Some(c)) => c,
        (None, None, None) => 0,
    }
}

/// TRUE for each leg whose reading is absent or differs from the vote by more than the tolerance.
pub fn deviates(readings: Triple<Option<i64>>, tolerance: i64) -> Triple<bool>
    requires { AreCounts readings }
    ensures { result ≡ deviates_of readings tolerance }
{
    let middle = mid(readings);
    Triple {
        a: is_off(readings.a, middle, tolerance),
        b: is_off(readings.b, middle, tolerance),
        c: is_off(readings.c, middle, tolerance),
    }
}

fn middle_of_three(a: i64, b: i64, c: i64) -> i64
    requires a { IsCount (Some a) }
    requires b { IsCount (Some b) }
    requires c { IsCount (Some c) }
    ensures middle { result ≡ middle (a ∷ b ∷ c ∷ []) }
    ensures first_two { LiesBetween (Some a) (Some b) result }
    ensures last_two { LiesBetween (Some b) (Some c) result }
    ensures ends { LiesBetween (Some c) (Some a) result }
    ensures count { IsCount (Some result) }
{
    a.min(b).max(a.max(b).min(c))
}

// The floor of the mean.
fn mean(a: i64, b: i64) -> i64
    requires a { IsCount (Some a) }
    requires b { IsCount (Some b) }
    ensures middle { result ≡ middle (a ∷ b ∷ []) }
    ensures between { LiesBetween (Some a) (Some b) result }
    ensures count { IsCount (Some result) }
{
    (a + b).div_euclid(2)
}

fn is_off(reading: Option<i64>, middle: i64, tolerance: i64) -> bool
    requires reading { IsCount reading }
    requires middle { IsCount (Some middle) }
    ensures { result ≡ is_off middle tolerance reading }
{
    match reading {
        Some(count) => (count - middle).abs() > tolerance,
        None => true,
    }
}

#[cfg(test)]
mod tests;
