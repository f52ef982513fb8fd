ghost use Rattle.std.specs.Prelude.{◌≡◌, [], ◌∷◌, ◌++◌, map, OnOk, IfOk};
ghost use Rattle.script_text.specs.Acts.{act_of};
ghost use Rattle.script_text.specs.LegScans.{Swap};

use script_lines::Block;
use std::alloc::Global;
use std::marker::Model;
use tri_base::{NoMemory, Text};

/// A line that changes a leg's state.
#[derive(Drop)]
pub enum Act {
    /// A word gets a value; no effect where there is no such word.
    Poke {
        /// The word's address, 0 to 4,095.
        address: usize,
        /// The word's new value.
        value: i64,
    },
    /// The leg begins to learn.
    Replace,
    /// The leg runs the program of this text.
    Swap(Text),
}

/// The lines of a scan that change a leg's state, seen as the list of them.
#[derive(Drop)]
pub(crate) struct Acts {
    acts: Vec<Act>,
}

impl Model for Acts {
    ghost use Rattle.std.specs.Prelude.{List, map};
    ghost use Rattle.script_text.specs.Acts.{act_of};
    ghost use Rattle.script_text.specs.LegScans.{LegAct};

    ghost Value = { List LegAct };

    ghost view = { λ a. map act_of a.acts.items };
}

impl Acts {
    /// No line.
    pub(crate) fn new(alloc: Global) -> Acts
        ensures { result ≡ [] }
    {
        Acts {
            acts: Vec::new(alloc),
        }
    }

    /// Adds a line at the end.
    pub(crate) fn add(&mut self, act: Act) -> Result<(), NoMemory>
        ensures { OnOk result (self.new ≡ self.old ++ act_of act ∷ []) }
    {
        let Ok(()) = self.acts.push(act) else {
            return Err(NoMemory);
        };
        Ok(())
    }

    /// Lends the lines.
    pub(crate) fn items(&self) -> &[Act]
        ensures { map act_of result.now ≡ self.now }
    {
        self.acts.as_slice()
    }
}

/// A SWAP line with a copy of its text.
pub(crate) fn swap_act(alloc: Global, block: &Block) -> Result<Act, NoMemory>
    ensures { IfOk result (λ act. act_of act ≡ Swap block.now) }
{
    Ok(Act::Swap(block.text().copy(alloc)?))
}
