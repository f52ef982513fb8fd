//! Output points and the words that they are taken from.

ghost use Rattle.std.specs.Prelude.{◌≡◌, ◌<◌, ◌≤◌, ◌+◌, ◌++◌, length, map, IfSome};
ghost use Rattle.std.specs.List.{All};
ghost use Rattle.tag_wiring.specs.Inner.Wires.{value_in};

use function_blocks::{Kind, clamp_to};
use tri_base::Words;

/// Where the value of an output point comes from.
#[derive(Clone, Copy)]
pub struct OutputWire {
    /// The address of its tag's word; None where the tag isn't declared.
    pub address: Option<usize>,
    /// The tag's type.
    pub kind: Kind,
    /// The point's least count.
    pub low: i64,
    /// The point's greatest count.
    pub high: i64,
}

/// The value of an output point.
pub fn value(wire: &OutputWire, words: &[i64]) -> i64
    requires { IfSome wire.now.address (λ at. at < length words.now) }
    ensures { result ≡ value_in words.now wire.now }
{
    match wire.address {
        Some(at) => wire.low.max(clamp_to(wire.kind, words[at]).min(wire.high)),
        None => 0,
    }
}

/// Adds the value of each output point.
pub fn take_words(wires: &[OutputWire], words: &[i64], outputs: &mut Words)
    requires within { All (λ w. IfSome w.address (λ at. at < length words.now)) wires.now }
    requires room { length wires.now ≤ outputs.old.spare }
    ensures list { outputs.new.list ≡ outputs.old.list ++ map (value_in words.now) wires.now }
    ensures room { outputs.new.spare + length wires.now ≡ outputs.old.spare }
{
    for wire in wires {
        outputs.add(value(wire, words));
    }
}
