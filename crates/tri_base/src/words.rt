ghost use Rattle.std.specs.Prelude.{◌≡◌, ◌<◌, ◌≤◌, ◌+◌, [], ◌∷◌, ◌++◌, length, slice_set, IsOk, OnOk, OnErr, IfOk};
ghost use Rattle.tri_base.specs.Rows.{KeepsRoom};

use crate::memory::NoMemory;
use std::alloc::Global;
use std::marker::Model;

/// Whole numbers in a row, with room that is kept for more.
#[derive(Drop)]
pub struct Words {
    items: Vec<i64>,
    room: usize,
}

impl Model for Words {
    ghost use Rattle.std.specs.Prelude.{◌+◌, ◌≤◌, vec_len, vec_capacity};
    ghost use Rattle.tri_base.specs.Rows.{WordsValue};

    ghost Value = { WordsValue };

    ghost view = { λ w. record { list = w.items.items; spare = w.room } };

    ghost invariant = { λ w. vec_len w.items + w.room ≤ vec_capacity w.items };
}

impl Words {
    ghost use Rattle.std.specs.Prelude.{◌≡◌, ◌<◌, ◌≤◌, ◌+◌, [], ◌∷◌, ◌++◌, length, slice_set, OnOk, OnErr, IfOk};
    ghost use Rattle.std.specs.Borrow.{sem};
    ghost use Rattle.tri_base.specs.Lent.{LendsWords};

    /// No words. It takes no memory, and keeps the allocator for later.
    pub fn new(alloc: Global) -> Words
        ensures { result.list ≡ [] }
    {
        Words {
            items: Vec::new(alloc),
            room: 0,
        }
    }

    /// How many words there are.
    pub fn len(&self) -> usize
        ensures { result ≡ length self.now.list }
    {
        self.items.len()
    }

    /// Lends the words.
    pub fn items(&self) -> &[i64]
        ensures { result.now ≡ self.now.list }
    {
        self.items.as_slice()
    }

    /// Lends the words for writing. Their number stays.
    pub fn items_mut(&mut self) -> &mut [i64]
        ensures* writes_back { sem 𝓛 (LendsWords self.entry result) }
        ensures value { result.now ≡ self.old.list }
    {
        self.items.as_mut_slice()
    }

    /// Sets one word.
    pub fn set(&mut self, at: usize, value: i64)
        requires { at < length self.old.list }
        ensures { self.new ≡ record self.old { list = slice_set self.old.list at value } }
    {
        self.items[at] = value;
    }

    /// Keeps room for at least so many more words.
    pub fn reserve(&mut self, room: usize) -> Result<(), NoMemory>
        ensures room { OnOk result (room ≤ self.new.spare) }
        ensures kept { self.old.spare ≤ self.new.spare }
        ensures list { self.new.list ≡ self.old.list }
        ensures refused { OnErr result (self.new ≡ self.old) }
    {
        self.items.reserve(room).map_err(|_| NoMemory)?;
        self.room = self.room.max(room);
        Ok(())
    }

    /// Adds a word at the end, in the room that is kept.
    pub fn add(&mut self, value: i64)
        requires { 0 < self.old.spare }
        ensures list { self.new.list ≡ self.old.list ++ value ∷ [] }
        ensures room { self.new.spare + 1 ≡ self.old.spare }
    {
        self.items.push(value).unwrap();
        self.room -= 1;
    }

    /// Adds words at the end, in the room that is kept.
    pub fn extend(&mut self, items: &[i64])
        requires { length items.now ≤ self.old.spare }
        ensures list { self.new.list ≡ self.old.list ++ items.now }
        ensures room { self.new.spare + length items.now ≡ self.old.spare }
    {
        self.items.extend_from_slice(items).unwrap();
        self.room -= items.len();
    }

    /// Takes all words out. Their room is kept.
    pub fn clear(&mut self)
        ensures list { self.new.list ≡ [] }
        ensures room { self.new.spare ≡ self.old.spare + length self.old.list }
    {
        self.room += self.items.len();
        self.items.clear();
    }

    /// The same words again.
    pub fn copy(&self, alloc: Global) -> Result<Words, NoMemory>
        ensures { IfOk result (λ w. w.list ≡ self.now.list) }
    {
        let items = Vec::from_slice(alloc, self.items.as_slice()).map_err(|_| NoMemory)?;
        Ok(Words { items, room: 0 })
    }
}

/// Adds a word at the end, and takes memory for it where no room is kept.
pub fn push_word(words: &mut Words, value: i64) -> Result<(), NoMemory>
    ensures list { OnOk result (words.new.list ≡ words.old.list ++ value ∷ []) }
    ensures room { KeepsRoom words.old words.new }
    ensures room_serves { 0 < words.old.spare → IsOk result }
    ensures refused { OnErr result (words.new ≡ words.old) }
{
    words.items.push(value).map_err(|_| NoMemory)?;
    words.room = words.room.saturating_sub(1);
    Ok(())
}
