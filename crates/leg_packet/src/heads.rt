ghost use Rattle.std.specs.Prelude.{◌≡◌, ◌≤◌, ◌^◌, length, slice_index_or, pos, int_le, nat_abs, ◌≤ℤ◌, Some, None, IfSome, if◌then◌else◌};
ghost use Rattle.leg_packet.specs.Sheets.{is_from_to, epoch_limit};
ghost use Rattle.leg_packet.specs.Inner.Heads.{are_heads};
ghost use Rattle.tri_base.specs.Limits.{text_limit, word_limit};

use crate::writing::RUNNING_RESULT;
use tri_base::{TEXT_LIMIT, WORD_LIMIT};

// The greatest epoch.
const EPOCH_LIMIT: usize = 1_000_000_000_000_000_000;

/// The first words of a running result.
#[derive(Clone, Copy)]
pub struct Front {
    kind: i64,
    epoch: i64,
    turn: i64,
    text_length: i64,
    word_length: i64,
}

/// Their numbers behind the 2, where each is in its range.
#[derive(Clone, Copy)]
pub struct Heads {
    pub epoch: usize,
    pub turn: usize,
    pub text_length: usize,
    pub word_length: usize,
}

/// The first five words.
pub fn front_of(words: &[i64]) -> Front
    requires { 5 ≤ length words.now }
    ensures kind { result.kind ≡ slice_index_or words.now 0 (pos 0) }
    ensures epoch { result.epoch ≡ slice_index_or words.now 1 (pos 0) }
    ensures turn { result.turn ≡ slice_index_or words.now 2 (pos 0) }
    ensures text_length { result.text_length ≡ slice_index_or words.now 3 (pos 0) }
    ensures word_length { result.word_length ≡ slice_index_or words.now 4 (pos 0) }
{
    Front {
        kind: words[0],
        epoch: words[1],
        turn: words[2],
        text_length: words[3],
        word_length: words[4],
    }
}

/// The numbers of the first words, where each is in its range.
pub fn heads_of(front: Front) -> Option<Heads>
    ensures heads { result ≡
        if are_heads front.kind front.epoch front.turn front.text_length front.word_length
        then Some (record {
          epoch = nat_abs front.epoch;
          turn = nat_abs front.turn;
          text_length = nat_abs front.text_length;
          word_length = nat_abs front.word_length;
        }) else None }
    ensures bounds { IfSome result
        (λ h. (h.epoch ≤ epoch_limit) × (h.text_length ≤ text_limit)
        × (h.word_length ≤ word_limit)) }
{
    if front.kind == RUNNING_RESULT
        && is_up_to(&front.epoch, EPOCH_LIMIT)
        && is_up_to(&front.text_length, TEXT_LIMIT)
        && is_up_to(&front.word_length, WORD_LIMIT)
        && is_natural(&front.turn)
    {
        return Some(Heads {
            epoch: natural(&front.epoch),
            turn: natural(&front.turn),
            text_length: natural(&front.text_length),
            word_length: natural(&front.word_length),
        });
    }
    None
}

fn is_up_to(word: &i64, most: usize) -> bool
    requires { most ≤ epoch_limit }
    ensures { result ≡ is_from_to word.now most }
{
    0 <= *word && *word <= most as i64
}

fn is_natural(word: &i64) -> bool
    ensures { result ≡ int_le (pos 0) word.now }
{
    0 <= *word
}

/// A word that isn't below 0.
pub fn natural(word: &i64) -> usize
    requires { pos 0 ≤ℤ word.now }
    ensures { result ≡ nat_abs word.now }
{
    *word as usize
}
