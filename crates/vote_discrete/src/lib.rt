//! The vote of three discrete readings.
#![tactic(auto)]

ghost use Rattle.std.specs.Prelude.{◌≡◌, false, []};
ghost use Rattle.vote_discrete.specs.Majority.{vote_of, present, dissent_of, TwoEqualWin, OneAloneDecides};
ghost use Rattle.vote_discrete.specs.Truths.{truths};

use tri_base::Triple;

/// What the words of a discrete point say: 0 is FALSE, any other TRUE. An absent word says nothing.
pub fn truths(words: Triple<Option<i64>>) -> Triple<Option<bool>>
    ensures { result ≡ truths words }
{
    Triple {
        a: words.a.map(|word| word != 0),
        b: words.b.map(|word| word != 0),
        c: words.c.map(|word| word != 0),
    }
}

/// The value that two of three readings have; of two readings TRUE only where both are; of one that
/// one; of none FALSE. A reading of None is absent.
pub fn vote(readings: Triple<Option<bool>>) -> bool
    ensures majority { result ≡ vote_of readings }
    ensures two_equal_win { TwoEqualWin readings result }
    ensures one_alone_decides { OneAloneDecides readings result }
    ensures none_is_false { present readings ≡ [] → result ≡ false }
{
    match (readings.a, readings.b, readings.c) {
        (Some(a), Some(b), Some(c)) => (a && b) || (b && c) || (c && a),
        (Some(a), Some(b), None) => a && b,
        (Some(a), None, Some(c)) => a && c,
        (None, Some(b), Some(c)) => b && c,
        (Some(a), None, None) => a,
        (None, Some(b), None) => b,
        (None, None, Some(c)) => c,
        (None, None, None) => false,
    }
}

/// TRUE for each leg whose reading is absent or differs from the vote.
pub fn dissent(readings: Triple<Option<bool>>) -> Triple<bool>
    ensures { result ≡ dissent_of readings }
{
    let voted = vote(readings);
    Triple {
        a: readings.a != Some(voted),
        b: readings.b != Some(voted),
        c: readings.c != Some(voted),
    }
}

#[cfg(test)]
mod tests;
