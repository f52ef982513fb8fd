ghost use Rattle.std.specs.Prelude.{◌≡◌, [], ◌∷◌, ◌++◌, OnErr, OnOk, IfOk};

use std::alloc::Global;
use std::marker::Model;
use tri_base::{NoMemory, Text, push_bytes};

/// Bytes that a script holds, as a program's text, seen as the list of them alone.
#[derive(Drop)]
pub struct Block {
    text: Text,
}

impl Model for Block {
    ghost use Rattle.std.specs.Prelude.{List, ℕ};

    ghost Value = { List ℕ };

    ghost view = { λ b. b.text.list };
}

impl Block {
    /// No bytes. It takes no memory, and keeps the allocator for later.
    pub fn new(alloc: Global) -> Block
        ensures { result ≡ [] }
    {
        Block {
            text: Text::new(alloc),
        }
    }

    /// Adds bytes at the end.
    pub fn add(&mut self, bytes: &[u8]) -> Result<(), NoMemory>
        ensures added { OnOk result (self.new ≡ self.old ++ bytes.now) }
        ensures refused { OnErr result (self.new ≡ self.old) }
    {
        push_bytes(&mut self.text, bytes)
    }

    /// Adds one byte at the end.
    pub fn add_byte(&mut self, byte: u8) -> Result<(), NoMemory>
        ensures added { OnOk result (self.new ≡ self.old ++ byte ∷ []) }
        ensures refused { OnErr result (self.new ≡ self.old) }
    {
        self.add(&[byte])
    }

    /// The same bytes again.
    pub fn copy(&self, alloc: Global) -> Result<Block, NoMemory>
        ensures { IfOk result (λ block. block ≡ self.now) }
    {
        Ok(Block {
            text: self.text.copy(alloc)?,
        })
    }

    /// Lends the text.
    pub fn text(&self) -> &Text
        ensures { result.now.list ≡ self.now }
    {
        &self.text
    }

    /// The text alone.
    pub fn into_text(self) -> Text
        ensures { result.list ≡ self }
    {
        self.text
    }
}
