ghost use Rattle.std.specs.Prelude.{◌≡◌, [], ◌∷◌, ◌++◌, OnErr, OnOk, IfOk};

use std::alloc::Global;
use std::marker::Model;
use tri_base::{NoMemory, Words, push_word};

/// The numbers of a line, seen as the list of them alone.
#[derive(Drop)]
pub struct Numbers {
    words: Words,
}

impl Model for Numbers {
    ghost use Rattle.std.specs.Prelude.{List, ℤ};

    ghost Value = { List ℤ };

    ghost view = { λ n. n.words.list };
}

impl Numbers {
    /// No numbers. It takes no memory, and keeps the allocator for later.
    pub fn new(alloc: Global) -> Numbers
        ensures { result ≡ [] }
    {
        Numbers {
            words: Words::new(alloc),
        }
    }

    /// Adds a number at the end.
    pub fn add(&mut self, number: i64) -> Result<(), NoMemory>
        ensures added { OnOk result (self.new ≡ self.old ++ number ∷ []) }
        ensures refused { OnErr result (self.new ≡ self.old) }
    {
        push_word(&mut self.words, number)
    }

    /// The same numbers again.
    pub fn copy(&self, alloc: Global) -> Result<Numbers, NoMemory>
        ensures { IfOk result (λ numbers. numbers ≡ self.now) }
    {
        Ok(Numbers {
            words: self.words.copy(alloc)?,
        })
    }

    /// Lends the numbers.
    pub fn words(&self) -> &Words
        ensures { result.now.list ≡ self.now }
    {
        &self.words
    }
}
