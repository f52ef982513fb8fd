ghost use Rattle.std.specs.Prelude.{◌≡◌, [], ◌∷◌, ◌++◌, OnErr, OnOk};

use std::alloc::Global;
use std::marker::Model;
use tri_base::{Leg, NoMemory};

/// Legs in a row, as the letters of a schedule, seen as the list of them.
#[derive(Drop)]
pub struct Legs {
    legs: Vec<Leg>,
}

impl Model for Legs {
    ghost use Rattle.std.specs.Prelude.{List};
    ghost use Rattle.tri_base.specs.declared.leg.Leg.{Leg};

    ghost Value = { List Leg };

    ghost view = { λ n. n.legs.items };
}

impl Legs {
    /// No legs. It takes no memory, and keeps the allocator for later.
    pub fn new(alloc: Global) -> Legs
        ensures { result ≡ [] }
    {
        Legs {
            legs: Vec::new(alloc),
        }
    }

    /// Adds a leg at the end.
    pub fn add(&mut self, leg: Leg) -> Result<(), NoMemory>
        ensures added { OnOk result (self.new ≡ self.old ++ leg ∷ []) }
        ensures refused { OnErr result (self.new ≡ self.old) }
    {
        self.legs.push(leg).map_err(|_| NoMemory)
    }

    /// Adds other legs at the end.
    pub fn append(&mut self, others: &Legs) -> Result<(), NoMemory>
        ensures added { OnOk result (self.new ≡ self.old ++ others.now) }
        ensures refused { OnErr result (self.new ≡ self.old) }
    {
        self.legs
            .extend_from_slice(others.legs.as_slice())
            .map_err(|_| NoMemory)
    }

    /// Lends the legs.
    pub fn legs(&self) -> &[Leg]
        ensures { result.now ≡ self.now }
    {
        self.legs.as_slice()
    }
}
