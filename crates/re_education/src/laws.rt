//! What holds of all packets that are learned from.

ghost use Rattle.std.specs.Prelude.{◌≤◌, ◌+◌, ℤ, List};
ghost use Rattle.re_education.specs.Lessons.{size_shown};
ghost use Rattle.tri_base.specs.Limits.{text_limit, word_limit};

use leg_packet::laws::spells_what_is_read;

/// No two packets show a memory of more than 20,480 numbers, text and words together.
pub fn sizes_are_small()
    ensures { (left right : List ℤ) → size_shown left right ≤ text_limit + word_limit }
{
    spells_what_is_read();
}
