//! Words that are told and set at addresses.

ghost use Rattle.std.specs.Prelude.{◌≡◌, ◌≢◌, ◌<◌, ◌≤◌, [], length, map, IfSome};
ghost use Rattle.std.specs.List.{All, AllPairs};
ghost use Rattle.tag_wiring.specs.Inner.Steps.{word_set, all_set, told_at};

use tri_base::{Touched, Words};

/// Notes the number that stands at each of the addresses.
pub fn note_words(addresses: &[usize], words: &[i64], touched: &mut Touched)
    requires within { All (λ a. a < length words.now) addresses.now }
    requires once { AllPairs (λ a b. a ≢ b) addresses.now }
    requires none { touched.old.pairs ≡ [] }
    requires size { length words.now ≤ touched.old.size }
    ensures { touched.new ≡ record touched.old { pairs = map (told_at words.now) addresses.now } }
{
    for address in addresses {
        touched.note(*address, words[*address]);
    }
}

/// Sets the word at each address to the value at its place; a value without an address is passed
/// over.
pub fn set_words(addresses: &[Option<usize>], values: &[i64], words: &mut Words)
    requires count { length values.now ≡ length addresses.now }
    requires within { All (λ a. IfSome a (λ at. at < length words.old.list)) addresses.now }
    ensures { words.new
        ≡ record words.old { list = all_set addresses.now values.now words.old.list } }
{
    for (place, address) in addresses.iter().enumerate() {
        set_word(*address, values[place], words);
    }
}

/// Sets the word at an address, if there is one.
pub fn set_word(address: Option<usize>, value: i64, words: &mut Words)
    requires { IfSome address (λ at. at < length words.old.list) }
    ensures { words.new ≡ record words.old { list = word_set words.old.list address value } }
{
    if let Some(at) = address {
        words.set(at, value);
    }
}
