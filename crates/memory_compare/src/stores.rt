ghost use Rattle.std.specs.Prelude.{◌≡◌, ◌<◌, ◌≤◌, ◌+◌, ◌^◌, ◌++◌, length, not};
ghost use Rattle.std.specs.Ordering.{int_eq};
ghost use Rattle.std.specs.List.{All};
ghost use Rattle.tri_base.specs.Rows.{KeepsRoom};
ghost use Rattle.tri_base.specs.Noted.{restored};
ghost use Rattle.memory_compare.specs.Changes.{changes_of, addresses_in, values_in};
ghost use Rattle.memory_compare.specs.Inner.OneChange.{before_of, noted_change, noted_below};

use tri_base::{Touched, Words};

/// Adds the places, counted from 0 and rising, that were stored to and hold another number now,
/// and the new number of each: what `changes` adds of the words as they were before the stores. It
/// looks at each word once and takes no memory.
#[tactic(auto, using(crate::proofs::Steps::addresses_step, crate::proofs::Steps::values_step))]
pub fn changes_of(touched: &Touched, words: &Words, addresses: &mut Words, values: &mut Words)
    requires within { All (λ pair. pair.0 < length words.now.list) touched.now.pairs }
    requires addresses_room { length touched.now.pairs ≤ addresses.old.spare }
    requires values_room { length touched.now.pairs ≤ values.old.spare }
    ensures addresses { addresses.new.list ≡ addresses.old.list
        ++ addresses_in (changes_of (restored touched.now.pairs words.now.list) words.now.list) }
    ensures values { values.new.list ≡ values.old.list
        ++ values_in (changes_of (restored touched.now.pairs words.now.list) words.now.list) }
    ensures rooms { KeepsRoom addresses.old addresses.new × KeepsRoom values.old values.new }
    ensures few { length (changes_of (restored touched.now.pairs words.now.list) words.now.list)
        ≤ length touched.now.pairs }
{
    let items = words.items();
    for address in 0..items.len() {
        add_noted(touched, address, items[address], addresses, values);
    }
}

/// Adds the change of one place, where it was stored to and holds another number now.
fn add_noted(
    touched: &Touched,
    address: usize,
    word: i64,
    addresses: &mut Words,
    values: &mut Words,
)
    requires cast { address < 2 ^ 63 }
    requires addresses_room { length touched.now.pairs
        ≤ addresses.old.spare + noted_below address touched.now.pairs }
    requires values_room { length touched.now.pairs
        ≤ values.old.spare + noted_below address touched.now.pairs }
    ensures addresses { addresses.new.list ≡ addresses.old.list
        ++ addresses_in (noted_change address touched.now.pairs word) }
    ensures values { values.new.list ≡ values.old.list
        ++ values_in (noted_change address touched.now.pairs word) }
    ensures addresses_room { length touched.now.pairs
        ≤ addresses.new.spare + noted_below (address + 1) touched.now.pairs }
    ensures values_room { length touched.now.pairs
        ≤ values.new.spare + noted_below (address + 1) touched.now.pairs }
    ensures rooms { KeepsRoom addresses.old addresses.new × KeepsRoom values.old values.new }
{
    if is_changed(touched, address, word) {
        addresses.add(address as i64);
        values.add(word);
    }
}

/// Whether a place was stored to and holds another number now.
fn is_changed(touched: &Touched, address: usize, word: i64) -> bool
    ensures { result ≡ not (int_eq (before_of address touched.now.pairs word) word) }
{
    touched.before(address).unwrap_or(word) != word
}
