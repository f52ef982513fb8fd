ghost use Rattle.std.specs.Prelude.{◌≡◌, ℤ, Some};
ghost use Rattle.vote_analog.specs.Middle.{AreCounts, present};
ghost use Rattle.output_voter.specs.CommonDrives.{common_drive, common_of_two, common_of_three};

use tri_base::{PointKind, Triple};
use vote_analog::mid;
use vote_discrete::{truths, vote};

/// What three words give at a point of a kind: of three the vote, of two their common value or 0,
/// of one that one, of none 0.
pub fn common_drive(kind: PointKind, words: Triple<Option<i64>>) -> i64
    requires { AreCounts words }
    ensures { result ≡ common_drive kind (present words) }
{
    match (words.a, words.b, words.c) {
        (Some(_), Some(_), Some(_)) => common_of_three(kind, words),
        (Some(a), Some(b), None) => common_of_two(a, b),
        (Some(a), None, Some(c)) => common_of_two(a, c),
        (None, Some(b), Some(c)) => common_of_two(b, c),
        (Some(a), None, None) => a,
        (None, Some(b), None) => b,
        (None, None, Some(c)) => c,
        (None, None, None) => 0,
    }
}

// Of words that are all there.
fn common_of_three(kind: PointKind, words: Triple<Option<i64>>) -> i64
    requires { AreCounts words }
    ensures { (a b c : ℤ) → words ≡ record { a = Some a; b = Some b; c = Some c }
        → result ≡ common_of_three kind a b c }
{
    match kind {
        PointKind::Di | PointKind::Do => i64::from(vote(truths(words))),
        PointKind::Ai | PointKind::Ao => mid(words),
    }
}

fn common_of_two(a: i64, b: i64) -> i64
    ensures { result ≡ common_of_two a b }
{
    if a == b { a } else { 0 }
}
