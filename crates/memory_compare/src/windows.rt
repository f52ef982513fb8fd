ghost use Rattle.std.specs.Prelude.{◌≡◌, ◌≤◌, ◌+◌, ◌++◌, length, take, drop, map, pos};
ghost use Rattle.tri_base.specs.Rows.{KeepsRoom};
ghost use Rattle.memory_compare.specs.Windows.{memory, window};

use tri_base::{Text, Words};

// How many words a full window has.
const WINDOW: usize = 64;

/// Adds one window of 64 words, counted from 0, of a program's text and then its words, as far as
/// they are there. No memory has more than 320 windows. It takes no memory.
pub fn window(text: &Text, words: &Words, turn: usize, into: &mut Words)
    requires room { 64 ≤ into.old.spare }
    requires turn { turn ≤ 319 }
    ensures list { into.new.list
        ≡ into.old.list ++ window (memory text.now.list words.now.list) turn }
    ensures room { KeepsRoom into.old into.new }
{
    let from = WINDOW * turn;
    let bytes = part(text.bytes(), from, WINDOW);
    add_bytes(bytes, into);
    let behind = part(
        words.items(),
        from.saturating_sub(text.len()),
        WINDOW - bytes.len(),
    );
    into.extend(behind);
}

/// So many items from a place on, or those that are left.
fn part<T>(items: &[T], from: usize, count: usize) -> &[T]
    ensures items { result.now ≡ take count (drop from items.now) }
    ensures few { length result.now ≤ count }
{
    let start = from.min(items.len());
    let left = items.len() - start;
    &items[start..start + count.min(left)]
}

fn add_bytes(bytes: &[u8], into: &mut Words)
    requires { length bytes.now ≤ into.old.spare }
    ensures list { into.new.list ≡ into.old.list ++ map pos bytes.now }
    ensures room { into.new.spare + length bytes.now ≡ into.old.spare }
{
    for byte in bytes {
        into.add(i64::from(*byte));
    }
}
