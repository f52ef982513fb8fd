ghost use Rattle.std.specs.Prelude.{◌≡◌, ◌≢◌, ◌≤◌, ◌^◌, ◌∷◌, IfSome, IfNone};
ghost use Rattle.std.specs.List.{list_all};
ghost use Rattle.leg_packet.specs.Sheets.{Sheet, IsCanonical, spelled, epoch_limit, is_byte, pairs_of, sheet_with_pairs, sheet_behind, sheet_with_tail, sheet_of};
ghost use Rattle.leg_packet.specs.Views.{Shows, IsViewOf};
ghost use Rattle.tri_base.specs.Limits.{text_limit, word_limit};

use crate::heads::{Front, Heads, front_of, heads_of, natural};
use crate::packet::Packet;
use crate::pairs::behind_pairs;
use crate::views::OutView;

// How many words a full window has, and the last window that the longest text and words have.
const WINDOW: usize = 64;

const LAST_TURN: usize = 319;

/// The running result that a packet spells; None exactly where it spells no canonical one. It goes
/// over the packet once and takes no memory.
pub fn read_out<'p>(packet: &'p Packet) -> Option<OutView<'p>>
    ensures view { IsViewOf (sheet_of packet.now) result }
    ensures some { IfSome result
        (λ v. (s : Sheet) × IsCanonical s × (spelled s ≡ packet.now) × Shows s v) }
    ensures none { IfNone result ((s : Sheet) → IsCanonical s → spelled s ≢ packet.now) }
{
    result_in(packet.words())
}

fn result_in<'p>(words: &'p [i64]) -> Option<OutView<'p>>
    ensures { IsViewOf (sheet_of words.now) result }
{
    if words.len() < 5 {
        return None;
    }
    read_front(front_of(words), &words[5..])
}

/// What has five words and others behind them.
fn read_front<'p>(front: Front, rest: &'p [i64]) -> Option<OutView<'p>>
    ensures { IsViewOf (sheet_of (front.kind ∷ front.epoch ∷ front.turn ∷ front.text_length
        ∷ front.word_length ∷ rest.now)) result }
{
    match heads_of(front) {
        Some(heads) => read_behind(heads, rest),
        None => None,
    }
}

/// What stands behind the lengths.
fn read_behind<'p>(heads: Heads, words: &'p [i64]) -> Option<OutView<'p>>
    requires epoch { heads.epoch ≤ epoch_limit }
    requires text { heads.text_length ≤ text_limit }
    requires words { heads.word_length ≤ word_limit }
    ensures { IsViewOf
        (sheet_behind heads.epoch heads.turn heads.text_length heads.word_length words.now) result }
{
    let size = heads.text_length + heads.word_length;
    if heads.turn > LAST_TURN || size <= WINDOW * heads.turn {
        return None;
    }
    let width = (size - WINDOW * heads.turn).min(WINDOW);
    if words.len() < width {
        return None;
    }
    read_tail(heads, &words[..width], &words[width..])
}

/// What stands behind the window.
fn read_tail<'p>(heads: Heads, window: &'p [i64], tail: &'p [i64]) -> Option<OutView<'p>>
    requires epoch { heads.epoch ≤ epoch_limit }
    requires turn { heads.turn ≤ 319 }
    requires text { heads.text_length ≤ text_limit }
    requires words { heads.word_length ≤ word_limit }
    ensures { IsViewOf (sheet_with_tail heads.epoch heads.turn heads.text_length heads.word_length
        window.now tail.now) result }
{
    match tail {
        [count, words @ ..] => read_count(heads, window, *count, words),
        _ => None,
    }
}

/// A number of pairs, and the words behind it.
fn read_count<'p>(
    heads: Heads,
    window: &'p [i64],
    count: i64,
    words: &'p [i64],
) -> Option<OutView<'p>>
    requires epoch { heads.epoch ≤ epoch_limit }
    requires turn { heads.turn ≤ 319 }
    requires text { heads.text_length ≤ text_limit }
    requires words { heads.word_length ≤ word_limit }
    ensures { IsViewOf (sheet_with_tail heads.epoch heads.turn heads.text_length heads.word_length
        window.now (count ∷ words.now)) result }
{
    let text_here = heads.text_length.saturating_sub(WINDOW * heads.turn);
    if 0 <= count && are_bytes(&window[..text_here.min(window.len())]) {
        return read_pairs(heads, window, natural(&count), words);
    }
    None
}

/// So many pairs, and the outputs behind them.
fn read_pairs<'p>(
    heads: Heads,
    window: &'p [i64],
    count: usize,
    words: &'p [i64],
) -> Option<OutView<'p>>
    requires epoch { heads.epoch ≤ epoch_limit }
    requires turn { heads.turn ≤ 319 }
    requires text { heads.text_length ≤ text_limit }
    requires words { heads.word_length ≤ word_limit }
    ensures { IsViewOf (sheet_with_pairs heads.epoch heads.turn heads.text_length heads.word_length
        window.now (pairs_of count 0 heads.word_length words.now)) result }
{
    match behind_pairs(words, count, heads.word_length) {
        Some(outputs) => Some(OutView {
            epoch: heads.epoch as i64,
            turn: heads.turn as i64,
            text_length: heads.text_length as i64,
            word_length: heads.word_length as i64,
            window,
            pairs: &words[..words.len() - outputs.len()],
            outputs,
        }),
        None => None,
    }
}

fn are_bytes(words: &[i64]) -> bool
    ensures { result ≡ list_all is_byte words.now }
{
    words.iter().all(|word| 0 <= *word && *word <= 255)
}
