ghost use Rattle.std.specs.Prelude.{◌≡◌, ◌≤◌, option_map};
ghost use Rattle.leg_packet.specs.Inner.Behind.{behind, is_address};
ghost use Rattle.leg_packet.specs.Inner.AfterPair.{IsAfterPair};
ghost use Rattle.tri_base.specs.Limits.{word_limit};

use crate::heads::natural;

/// Words that are left, and the least address that the next pair may have.
#[derive(Clone, Copy)]
struct Left<'p> {
    from: usize,
    words: &'p [i64],
}

/// What stands behind so many pairs with rising addresses below another.
#[tactic(auto, using(crate::proofs::Tails::one_less, crate::proofs::Tails::behind_all))]
pub fn behind_pairs<'p>(words: &'p [i64], count: usize, below: usize) -> Option<&'p [i64]>
    requires { below ≤ word_limit }
    ensures { option_map (λ rest. rest.now) result ≡ behind count 0 below words.now }
{
    let mut left = Left { from: 0, words };
    for _done in 0..count {
        match after_pair(left, below) {
            Some(after) => left = after,
            None => return None,
        }
    }
    Some(left.words)
}

/// What stands behind one pair.
fn after_pair<'p>(left: Left<'p>, below: usize) -> Option<Left<'p>>
    requires { below ≤ word_limit }
    ensures { IsAfterPair below left.entry result }
{
    match left.words {
        [address, _, rest @ ..] => {
            if is_between(address, left.from, below) {
                return Some(Left {
                    from: natural(address) + 1,
                    words: rest,
                });
            }
            None
        }
        _ => None,
    }
}

fn is_between(word: &i64, from: usize, below: usize) -> bool
    requires { below ≤ word_limit }
    ensures { result ≡ is_address from below word.now }
{
    0 <= *word && from <= *word as usize && (*word as usize) < below
}
