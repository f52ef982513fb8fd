ghost use Rattle.std.specs.Prelude.{◌≡◌, ◌<◌, ◌≤◌, [], OnOk, OnErr};

use crate::sink::{Sink, SinkFailed};
use std::alloc::Global;
use std::marker::Model;
use tri_base::{NoMemory, Text, push_bytes};

/// Keeps what it takes in memory, in small pieces, where some calls fail. A put that goes past the
/// room that was reserved fails too.
#[derive(Drop)]
pub struct MemorySink {
    bytes: Text,
    room: usize,
    piece: usize,
    failing: Vec<u64>,
    calls: u64,
    faults: u64,
}

impl Model for MemorySink {
    ghost use Rattle.std.specs.Prelude.{◌<◌, ◌≤◌};
    ghost use Rattle.tri_io.specs.MemoryStreams.{SinkValue};

    ghost Value = { SinkValue };

    ghost view = { λ s. record {
      taken = s.bytes.list;
      spare = s.room;
      piece = s.piece;
      failing = s.failing.items;
      calls = s.calls;
      faults = s.faults;
    } };

    ghost invariant = { λ s. (0 < s.piece) × (s.room ≤ s.bytes.spare) };
}

impl MemorySink {
    /// A sink that has taken nothing and has no room yet. A put takes at most `piece` bytes, and
    /// the calls whose numbers, from 1, are listed fail.
    pub fn new(alloc: Global, piece: usize, failing: Vec<u64>) -> MemorySink
        requires { 0 < piece }
        ensures { result ≡ record {
          taken = [];
          spare = 0;
          piece = piece;
          failing = failing.items;
          calls = 0;
          faults = 0;
        } }
    {
        MemorySink {
            bytes: Text::new(alloc),
            room: 0,
            piece,
            failing,
            calls: 0,
            faults: 0,
        }
    }

    /// Keeps room for at least so many more bytes.
    pub fn reserve(&mut self, room: usize) -> Result<(), NoMemory>
        ensures room { OnOk result (room ≤ self.new.spare) }
        ensures kept { self.old.spare ≤ self.new.spare }
        ensures same { self.new ≡ record self.old { spare = self.new.spare } }
        ensures refused { OnErr result (self.new ≡ self.old) }
    {
        self.bytes.reserve(room)?;
        self.room = self.room.max(room);
        Ok(())
    }

    /// Lends the bytes taken.
    pub fn bytes(&self) -> &[u8]
        ensures { result.now ≡ self.now.taken }
    {
        self.bytes.bytes()
    }
}

impl Sink for MemorySink {
    ghost use Rattle.std.specs.Prelude.{◌≡◌, ◌<◌, ◌≤◌, Some, length, IfOk};
    ghost use Rattle.std.specs.Result.{result_ok};
    ghost use Rattle.tri_io.specs.FaultCounts.{HasCause};
    ghost use Rattle.tri_io.specs.MemoryStreams.{moved_by_put, after_put};
    ghost use Rattle.tri_io.specs.SingleCalls.{Puts};

    ghost taken = { λ s. Some s.taken };

    ghost faults = { λ s. s.faults };

    fn put(&mut self, bytes: &[u8]) -> Result<usize, SinkFailed>
        ensures within { IfOk result (λ n. n ≤ length bytes.now) }
        ensures some { 0 < length bytes.now → IfOk result (λ n. 0 < n) }
        ensures taken { Puts (Some self.old.taken) (Some self.new.taken) result bytes.now }
        ensures cause { HasCause self.old.faults self.new.faults result }
        ensures answer { result_ok result ≡ moved_by_put self.old (length bytes.now) }
        ensures after { self.new ≡ after_put self.old (result_ok result) bytes.now }
    {
        self.calls = self.calls.saturating_add(1);
        let count = bytes.len().min(self.piece);
        if self.failing.contains(&self.calls) || self.room < count {
            self.faults = self.faults.saturating_add(1);
            return Err(SinkFailed);
        }
        push_bytes(&mut self.bytes, &bytes[..count]).unwrap();
        self.room -= count;
        Ok(count)
    }
}
