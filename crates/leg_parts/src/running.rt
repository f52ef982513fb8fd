ghost use Rattle.std.specs.Prelude.{◌≡◌, ◌≤◌, ◌<◌, ◌+◌, ◌%◌, ◌≤ℤ◌, nat_abs, pos, length};
ghost use Rattle.std.specs.List.{All};
ghost use Rattle.tri_base.specs.Noted.{restored};
ghost use Rattle.tri_base.specs.Limits.{text_limit, word_limit};
ghost use Rattle.chassis.specs.Points.{point_limit};
ghost use Rattle.leg_packet.specs.Sheets.{Has, epoch_limit, windows_of};
ghost use Rattle.leg_parts.specs.Inner.Sheets.{IsShort, sheet_told};

use leg_packet::OutSheet;
use memory_compare::{changes_of, window};
use tri_base::{Text, Touched, Words};

// The words of a window.
const WINDOW: usize = 64;

/// Tells of a program's words after a scan: their changes and a window of the memory. The outputs
/// stay.
pub(crate) fn tell_changes(
    sheet: &mut OutSheet,
    text: &Text,
    words: &Words,
    touched: &Touched,
    epoch: usize,
    turn: usize,
)
    requires short { IsShort sheet.old }
    requires epoch { epoch ≤ epoch_limit }
    requires turn { turn ≤ 319 }
    requires text { length text.now.list ≤ text_limit }
    requires words { length words.now.list ≤ word_limit }
    requires size { touched.now.size ≡ word_limit }
    requires within { All (λ pair. pair.0 < length words.now.list) touched.now.pairs }
    ensures told { Has sheet.new (sheet_told epoch turn text.now.list
        (restored touched.now.pairs words.now.list) words.now.list sheet.old.outputs.list) }
    ensures short { IsShort sheet.new }
    ensures outputs { sheet.new.outputs ≡ sheet.old.outputs }
{
    // No more places were stored to than there are words.
    let _pairs = touched.pairs();
    sheet.epoch = epoch as i64;
    sheet.turn = turn as i64;
    sheet.text_length = text.len() as i64;
    sheet.word_length = words.len() as i64;
    sheet.addresses.clear();
    sheet.values.clear();
    changes_of(touched, words, &mut sheet.addresses, &mut sheet.values);
    sheet.window.clear();
    window(text, words, turn, &mut sheet.window);
}

/// The window behind one of a memory with a text and words, or the first behind the last.
pub(crate) fn turn_after(turn: usize, text: usize, words: usize) -> usize
    requires turn { turn ≤ 319 }
    requires some { 0 < text }
    requires text { text ≤ text_limit }
    requires words { words ≤ word_limit }
    ensures turn { result ≡ (turn + 1) % windows_of (text + words) }
    ensures bound { result ≤ 319 }
{
    (turn + 1) % (text + words).div_ceil(WINDOW)
}

/// A word that isn't below 0.
pub(crate) fn natural(word: &i64) -> usize
    requires { pos 0 ≤ℤ word.now }
    ensures { result ≡ nat_abs word.now }
{
    *word as usize
}
