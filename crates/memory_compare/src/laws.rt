//! What holds of changes and windows for all memories.

ghost use Rattle.std.specs.Prelude.{◌≡◌, ◌<◌, ◌-◌, ◌+◌, ◌*◌, ◌++◌, ℕ, ℤ, List, length, take};
ghost use Rattle.std.specs.List.{All};
ghost use Rattle.leg_packet.specs.Sheets.{Rise, IsByte, window_length};
ghost use Rattle.memory_compare.specs.Changes.{changes_of, applied};
ghost use Rattle.memory_compare.specs.Windows.{memory, window, written};

/// Changes set in the old words, with a text in front of them, give the new words.
pub fn changes_give_the_new()
    ensures { (behind : ℕ) (front old new : List ℤ)
        → length front ≡ behind → length old ≡ length new
        → applied behind (changes_of old new) (front ++ old) ≡ front ++ new }
{}

/// The addresses of changes rise strictly, below the number of words.
pub fn changes_rise()
    ensures { (old new : List ℤ) → length old ≡ length new
        → Rise 0 (length new) (changes_of old new) }
{}

/// A window has 64 words, or those that are left.
pub fn windows_are_whole()
    ensures { (words : List ℤ) (turn : ℕ)
        → length (window words turn) ≡ window_length (length words) turn }
{}

/// The places of a window that are text hold bytes.
pub fn windows_show_bytes()
    ensures { (text : List ℕ) (words : List ℤ) (turn : ℕ) → All (λ byte. byte < 256) text
        → All IsByte (take (length text - 64 * turn) (window (memory text words) turn)) }
{}

/// A memory in which its own window is written is the same memory.
pub fn own_window_changes_nothing()
    ensures { (words : List ℤ) (turn : ℕ) → written (64 * turn) (window words turn) words ≡ words }
{}
