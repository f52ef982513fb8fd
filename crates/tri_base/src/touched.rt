ghost use Rattle.std.specs.Prelude.{◌≡◌, ◌≢◌, ◌<◌, ◌≤◌, [], length, IfOk};
ghost use Rattle.std.specs.List.{All, AllPairs};
ghost use Rattle.tri_base.specs.Noted.{number_before, noted};

use crate::memory::NoMemory;
use std::alloc::Global;
use std::marker::Model;

/// The places of a memory that were stored to, in order of the first store to each, with the numbers
/// that stood there before.
#[derive(Drop)]
pub struct Touched {
    pairs: Vec<(usize, i64)>,
    /// For each address one more than the place of its pair, or 0.
    places: Vec<usize>,
}

impl Model for Touched {
    ghost use Rattle.std.specs.Prelude.{length};
    ghost use Rattle.tri_base.specs.Noted.{TouchedValue};

    ghost Value = { TouchedValue };

    ghost use Rattle.tri_base.specs.Inner.TouchedFields.{IsTied};

    ghost view = { λ t. record { pairs = t.pairs.items; size = length t.places.items } };

    ghost invariant = { IsTied };
}

impl Touched {
    /// No place of a memory of so many words.
    pub fn new(alloc: Global, size: usize) -> Result<Touched, NoMemory>
        ensures { IfOk result (λ t. t ≡ record { pairs = []; size = size }) }
    {
        let pairs = Vec::with_capacity(alloc, size).map_err(|_| NoMemory)?;
        let places = vec![in alloc; 0usize; size].map_err(|_| NoMemory)?;
        Ok(Touched { pairs, places })
    }

    /// Takes all pairs out, in time of their number.
    pub fn clear(&mut self)
        ensures { self.new ≡ record self.old { pairs = [] } }
    {
        while let Some((address, _)) = self.pairs.pop() {
            self.places[address] = 0;
        }
    }

    /// Notes a store to an address where a number stood. A second store to it changes nothing.
    pub fn note(&mut self, address: usize, before: i64)
        requires { address < self.old.size }
        ensures { self.new ≡ record self.old { pairs = noted address before self.old.pairs } }
    {
        if self.places[address] == 0 {
            self.pairs.push((address, before)).unwrap();
            self.places[address] = self.pairs.len();
        }
    }

    /// Lends the pairs of an address and the number that stood there before the first store.
    /// No two pairs have one address, so there are at most as many as words.
    pub fn pairs(&self) -> &[(usize, i64)]
        ensures value { result.now ≡ self.now.pairs }
        ensures within { All (λ pair. pair.0 < self.now.size) self.now.pairs }
        ensures once { AllPairs (λ pair other. pair.0 ≢ other.0) self.now.pairs }
        ensures few { length self.now.pairs ≤ self.now.size }
    {
        self.pairs.as_slice()
    }

    /// The number that stood at an address before the first store; None exactly where none was noted.
    pub fn before(&self, address: usize) -> Option<i64>
        ensures { result ≡ number_before address self.now.pairs }
    {
        if address >= self.places.len() {
            return None;
        }
        let place = self.places[address];
        if place == 0 {
            return None;
        }
        Some(self.pairs[place - 1].1)
    }
}
