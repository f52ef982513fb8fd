ghost use Rattle.std.specs.Prelude.{◌≡◌, ◌≤◌, ◌<◌, ◌+◌, ◌*◌, ◌^◌, ◌++◌, [], ◌∷◌, pos, length};
ghost use Rattle.leg_packet.specs.Sheets.{paired};

use crate::sheet::OutSheet;
use crate::writing::RUNNING_RESULT;
use std::alloc::Global;
use std::marker::Model;
use tri_base::{NoMemory, Words};

/// The words that every packet has room for: 5 in front, 64 of a window, the number of pairs, 8,192
/// of 4,096 pairs, and 256 outputs. No readings and no running result of a leg have more.
pub const PACKET_WORDS: usize = 8518;

/// What one leg hands another, seen as a list of words. A packet without words is absent.
#[derive(Drop)]
pub struct Packet {
    words: Words,
}

impl Model for Packet {
    ghost use Rattle.std.specs.Prelude.{List, ℤ};
    ghost use Rattle.tri_base.specs.Rows.{HasRoom};
    ghost use Rattle.leg_packet.specs.Sheets.{packet_limit};

    ghost Value = { List ℤ };

    ghost view = { λ p. p.words.list };

    ghost invariant = { λ p. HasRoom packet_limit p.words };
}

impl Packet {
    ghost use Rattle.std.specs.Prelude.{◌≡◌, ◌≤◌, ◌+◌, ◌*◌, [], ◌∷◌, length, IsOk, OnOk, OnErr, IfOk};
    ghost use Rattle.leg_packet.specs.Sheets.{spelled_out, packet_limit};

    /// An absent packet, with its room.
    pub fn blank(alloc: Global) -> Result<Packet, NoMemory>
        ensures { IfOk result (λ p. p ≡ []) }
    {
        let mut words = Words::new(alloc);
        words.reserve(PACKET_WORDS)?;
        Ok(Packet { words })
    }

    /// Makes the packet absent.
    pub fn clear(&mut self)
        ensures { self.new ≡ [] }
    {
        self.words.clear();
    }

    /// Lends the words.
    pub fn words(&self) -> &[i64]
        ensures { result.now ≡ self.now }
    {
        self.words.items()
    }

    /// Puts any words in place of the content. More than 8,518 take memory.
    pub fn write_words(&mut self, words: &Words) -> Result<(), NoMemory>
        ensures ok { OnOk result (self.new ≡ words.now.list) }
        ensures err { OnErr result (self.new ≡ self.old) }
        ensures fits { length words.now.list ≤ packet_limit → IsOk result }
    {
        if words.len() > PACKET_WORDS {
            self.words.reserve(words.len())?;
        }
        self.words.clear();
        self.words.extend(words.items());
        Ok(())
    }

    /// Puts two words and others behind them in place of the content.
    pub(crate) fn write_two(&mut self, first: i64, second: i64, rest: &Words)
        requires { 2 + length rest.now.list ≤ packet_limit }
        ensures { self.new ≡ first ∷ second ∷ rest.now.list }
    {
        self.words.clear();
        self.words.add(first);
        self.words.add(second);
        self.words.extend(rest.items());
    }

    /// Puts one word in place of the content.
    pub(crate) fn write_one(&mut self, word: i64)
        ensures { self.new ≡ word ∷ [] }
    {
        self.words.clear();
        self.words.add(word);
    }

    /// Puts a running result in place of the content.
    #[tactic(auto, using(crate::proofs::Paired::length_paired, std::proofs::lemmas::List::append_assoc))]
    pub(crate) fn write_sheet(&mut self, sheet: &OutSheet)
        requires paired { length sheet.now.addresses.list ≡ length sheet.now.values.list }
        requires room { 6 + length sheet.now.window.list + 2 * length sheet.now.addresses.list
            + length sheet.now.outputs.list ≤ packet_limit }
        ensures { self.new ≡ spelled_out sheet.now }
    {
        self.words.clear();
        add_heads(&mut self.words, sheet);
        self.words.extend(sheet.window.items());
        add_changes(&mut self.words, sheet);
        self.words.extend(sheet.outputs.items());
    }
}

// A packet may be handed to another thread.
fn sends(packet: Packet) {
    needs_send(packet);
}

fn needs_send<T: Send + Drop>(_value: T) {}

/// Adds what stands in front of the window.
fn add_heads(words: &mut Words, sheet: &OutSheet)
    requires { 5 ≤ words.old.spare }
    ensures list { words.new.list ≡ words.old.list ++ pos 2 ∷ sheet.now.epoch ∷ sheet.now.turn
        ∷ sheet.now.text_length ∷ sheet.now.word_length ∷ [] }
    ensures room { words.new.spare + 5 ≡ words.old.spare }
{
    words.add(RUNNING_RESULT);
    words.add(sheet.epoch);
    words.add(sheet.turn);
    words.add(sheet.text_length);
    words.add(sheet.word_length);
}

/// Adds how many changes there are, and the changes.
fn add_changes(words: &mut Words, sheet: &OutSheet)
    requires paired { length sheet.now.addresses.list ≡ length sheet.now.values.list }
    requires few { 2 * length sheet.now.addresses.list ≤ 8512 }
    requires room { 1 + 2 * length sheet.now.addresses.list ≤ words.old.spare }
    ensures list { words.new.list ≡ words.old.list ++ pos (length sheet.now.addresses.list)
        ∷ paired sheet.now.addresses.list sheet.now.values.list }
    ensures room { words.new.spare + 1 + 2 * length sheet.now.addresses.list ≡ words.old.spare }
{
    add_number(words, sheet.addresses.len());
    add_pairs(words, &sheet.addresses, &sheet.values);
}

fn add_number(words: &mut Words, number: usize)
    requires number { number < 2 ^ 63 }
    requires room { 0 < words.old.spare }
    ensures list { words.new.list ≡ words.old.list ++ pos number ∷ [] }
    ensures room { words.new.spare + 1 ≡ words.old.spare }
{
    words.add(number as i64);
}

/// Adds each address with its number behind it.
#[tactic(auto, using(crate::proofs::Paired::paired_step))]
fn add_pairs(words: &mut Words, addresses: &Words, values: &Words)
    requires paired { length addresses.now.list ≡ length values.now.list }
    requires room { 2 * length addresses.now.list ≤ words.old.spare }
    ensures list { words.new.list ≡ words.old.list ++ paired addresses.now.list values.now.list }
    ensures room { words.new.spare + 2 * length addresses.now.list ≡ words.old.spare }
{
    let places = addresses.items();
    let numbers = values.items();
    for at in 0..places.len() {
        words.add(places[at]);
        words.add(numbers[at]);
    }
}
