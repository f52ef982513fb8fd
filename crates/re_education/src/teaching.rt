ghost use Rattle.std.specs.Prelude.{◌≡◌, ◌+◌, ◌≤◌, ◌<◌, ◌≤ℤ◌, length, nat_abs, pos, slice_set};
ghost use Rattle.memory_compare.specs.Changes.{applied};
ghost use Rattle.memory_compare.specs.Windows.{written};
ghost use Rattle.re_education.specs.Learning.{taught};
ghost use Rattle.re_education.specs.Inner.Shown.{ArePairs, IsSound, pairs_in, sheet_in};

use crate::shown::{Shown, natural};
use tri_base::Words;

// How many words a full window has.
const WINDOW: usize = 64;

/// Writes what is shown into an image: the changes, and then the window.
pub fn teach(image: &mut Words, shown: &Shown<'_>)
    requires sound { IsSound shown.now }
    requires size { length image.old.list ≡ shown.now.text_length + shown.now.word_length }
    ensures list { image.new.list ≡ taught (sheet_in shown.now) image.old.list }
    ensures room { image.new.spare ≡ image.old.spare }
{
    write_pairs(
        image.items_mut(),
        shown.text_length,
        shown.word_length,
        shown.pairs,
    );
    write_window(image.items_mut(), WINDOW * shown.turn, shown.window);
}

/// Writes a window into an image from a place on.
fn write_window(image: &mut [i64], at: usize, window: &[i64])
    requires { at + length window.now ≤ length image.old }
    ensures { image.new ≡ written at window.now image.old }
{
    image[at..at + window.len()].copy_from_slice(window);
}

/// Writes the number of each pair to its address behind so many places.
#[tactic(auto, using(crate::proofs::Applied::applied_step, crate::proofs::Applied::applied_end, crate::proofs::Applied::pair_there))]
fn write_pairs(image: &mut [i64], behind: usize, below: usize, pairs: &[i64])
    requires size { length image.old ≡ behind + below }
    requires pairs { ArePairs below pairs.now }
    ensures { image.new ≡ applied behind (pairs_in pairs.now) image.old }
{
    let mut at = 0;
    while at + 1 < pairs.len() {
        write_pair(image, behind, below, &pairs[at], &pairs[at + 1]);
        at += 2;
    }
}

/// Writes the number of one pair.
fn write_pair(image: &mut [i64], behind: usize, below: usize, address: &i64, value: &i64)
    requires size { length image.old ≡ behind + below }
    requires from { pos 0 ≤ℤ address.now }
    requires below { nat_abs address.now < below }
    ensures { image.new ≡ slice_set image.old (behind + nat_abs address.now) value.now }
{
    image[behind + natural(address)] = *value;
}
