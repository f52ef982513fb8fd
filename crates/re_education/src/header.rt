ghost use Rattle.std.specs.Prelude.{◌≡◌, ◌≤◌};
ghost use Rattle.re_education.specs.Learning.{next_turn};
ghost use Rattle.re_education.specs.Inner.Shown.{IsSound, sheet_in};

use crate::shown::{Shown, windows_shown};

/// Of what memory an image is, the turn that is expected next, and how many windows are learned.
#[derive(Clone, Copy)]
pub struct Header {
    pub epoch: usize,
    pub text_length: usize,
    pub word_length: usize,
    pub turn: usize,
    pub windows: u32,
}

/// Nothing is learned.
pub const NOTHING: Header = Header {
    epoch: 0,
    text_length: 0,
    word_length: 0,
    turn: 0,
    windows: 0,
};

/// What is expected after a window.
pub fn next_header(shown: &Shown<'_>, count: u32) -> Header
    requires { IsSound shown.now }
    ensures { result ≡ record {
      epoch = shown.now.epoch;
      text_length = shown.now.text_length;
      word_length = shown.now.word_length;
      turn = next_turn (sheet_in shown.now);
      windows = count;
    } }
{
    Header {
        epoch: shown.epoch,
        text_length: shown.text_length,
        word_length: shown.word_length,
        turn: turn_after(shown),
        windows: count,
    }
}

/// The turn that is expected after a window.
pub fn turn_after(shown: &Shown<'_>) -> usize
    requires { IsSound shown.now }
    ensures value { result ≡ next_turn (sheet_in shown.now) }
    ensures bound { result ≤ 319 }
{
    (shown.turn + 1) % windows_shown(shown)
}
