ghost use Rattle.std.specs.Prelude.{◌≡◌, ◌+◌, ◌≤◌, ◌<◌, ◌++◌, [], ◌∷◌, length, map, nat_abs, take, drop};
ghost use Rattle.std.specs.List.{All};
ghost use Rattle.leg_packet.specs.Sheets.{IsByte};

use crate::shown::natural;
use tri_base::{Text, Words, push_bytes};

/// Fills an empty text and empty words from the image of a memory.
pub fn fill(image: &Words, text_length: usize, text: &mut Text, words: &mut Words)
    requires bytes { All IsByte (take text_length image.now.list) }
    requires within { text_length ≤ length image.now.list }
    requires text_empty { text.old.list ≡ [] }
    requires text_room { text_length ≤ text.old.spare }
    requires words_empty { words.old.list ≡ [] }
    requires words_room { length image.now.list ≤ text_length + words.old.spare }
    ensures text { text.new.list ≡ map nat_abs (take text_length image.now.list) }
    ensures words { words.new.list ≡ drop text_length image.now.list }
{
    let items = image.items();
    add_bytes(text, &items[..text_length]);
    words.extend(&items[text_length..]);
}

/// Adds words that are bytes to a text.
fn add_bytes(text: &mut Text, words: &[i64])
    requires bytes { All IsByte words.now }
    requires room { length words.now ≤ text.old.spare }
    ensures { text.new.list ≡ text.old.list ++ map nat_abs words.now }
{
    for word in words {
        add_byte(text, word);
    }
}

/// Adds one word that is a byte.
fn add_byte(text: &mut Text, word: &i64)
    requires byte { IsByte word.now }
    requires room { 0 < text.old.spare }
    ensures list { text.new.list ≡ text.old.list ++ nat_abs word.now ∷ [] }
    ensures room { text.old.spare ≤ text.new.spare + 1 }
{
    let byte = natural(word) as u8;
    push_bytes(text, &[byte]).unwrap();
}
