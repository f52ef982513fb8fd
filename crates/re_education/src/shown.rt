ghost use Rattle.std.specs.Prelude.{◌≡◌, ◌≤ℤ◌, pos, nat_abs};
ghost use Rattle.leg_packet.specs.Sheets.{sheet_of};
ghost use Rattle.re_education.specs.Learning.{shown_by_both, sheet_windows};
ghost use Rattle.re_education.specs.Inner.Shown.{TellsOf, IsSound, sheet_in};

use leg_packet::{Packet, read_out};

/// What a running result shows of a memory.
#[derive(Clone, Copy)]
pub struct Shown<'p> {
    pub epoch: usize,
    pub turn: usize,
    pub text_length: usize,
    pub word_length: usize,
    pub window: &'p [i64],
    pub pairs: &'p [i64],
}

/// What two packets show, where they are one running result.
pub fn both_show<'p>(left: &'p Packet, right: &Packet) -> Option<Shown<'p>>
    ensures { TellsOf (shown_by_both left.now right.now) result }
{
    if left.words() == right.words() {
        return shown_in(left);
    }
    None
}

fn shown_in<'p>(packet: &'p Packet) -> Option<Shown<'p>>
    ensures { TellsOf (sheet_of packet.now) result }
{
    match read_out(packet) {
        Some(view) => Some(Shown {
            epoch: natural(&view.epoch),
            turn: natural(&view.turn),
            text_length: natural(&view.text_length),
            word_length: natural(&view.word_length),
            window: view.window,
            pairs: view.pairs,
        }),
        None => None,
    }
}

/// A word that isn't below 0.
pub fn natural(word: &i64) -> usize
    requires { pos 0 ≤ℤ word.now }
    ensures { result ≡ nat_abs word.now }
{
    *word as usize
}

/// How many windows the memory has.
pub fn windows_shown(shown: &Shown<'_>) -> usize
    requires { IsSound shown.now }
    ensures { result ≡ sheet_windows (sheet_in shown.now) }
{
    (shown.text_length + shown.word_length + 63) / 64
}
