ghost use Rattle.std.specs.Prelude.{◌≡◌, ◌<◌};

use crate::front::copy_front;
use crate::source::{Source, SourceFailed};
use std::marker::Model;
use tri_base::Text;

/// Bytes in memory that are given in small pieces, where some calls fail.
#[derive(Drop)]
pub struct MemorySource {
    bytes: Text,
    at: usize,
    piece: usize,
    failing: Vec<u64>,
    calls: u64,
    faults: u64,
}

impl Model for MemorySource {
    ghost use Rattle.std.specs.Prelude.{drop, length, ◌<◌, ◌≤◌};
    ghost use Rattle.tri_io.specs.MemoryStreams.{SourceValue};

    ghost Value = { SourceValue };

    ghost view = { λ s. record {
      left = drop s.at s.bytes.list;
      piece = s.piece;
      failing = s.failing.items;
      calls = s.calls;
      faults = s.faults;
    } };

    ghost invariant = { λ s. (0 < s.piece) × (s.at ≤ length s.bytes.list) };
}

impl MemorySource {
    /// A source that has these bytes. A read moves at most `piece` of them, and the calls whose
    /// numbers, from 1, are listed fail.
    pub fn new(bytes: Text, piece: usize, failing: Vec<u64>) -> MemorySource
        requires { 0 < piece }
        ensures { result ≡ record {
          left = bytes.list;
          piece = piece;
          failing = failing.items;
          calls = 0;
          faults = 0;
        } }
    {
        MemorySource {
            bytes,
            at: 0,
            piece,
            failing,
            calls: 0,
            faults: 0,
        }
    }
}

impl Source for MemorySource {
    ghost use Rattle.std.specs.Prelude.{◌≡◌, ◌≤◌, ◌++◌, Some, length, take, drop, IfOk};
    ghost use Rattle.std.specs.Result.{result_ok};
    ghost use Rattle.tri_io.specs.FaultCounts.{HasCause};
    ghost use Rattle.tri_io.specs.MemoryStreams.{moved_by_read, after_read};
    ghost use Rattle.tri_io.specs.SingleCalls.{Reads};

    ghost left = { λ s. Some s.left };

    ghost faults = { λ s. s.faults };

    fn read(&mut self, buffer: &mut [u8]) -> Result<usize, SourceFailed>
        ensures within { IfOk result (λ n. n ≤ length buffer.new) }
        ensures bytes { Reads (Some self.old.left) (Some self.new.left) result buffer.new }
        ensures cause { HasCause self.old.faults self.new.faults result }
        ensures answer { result_ok result ≡ moved_by_read self.old (length buffer.new) }
        ensures after { self.new ≡ after_read self.old (result_ok result) }
    {
        self.calls = self.calls.saturating_add(1);
        if self.failing.contains(&self.calls) {
            self.faults = self.faults.saturating_add(1);
            return Err(SourceFailed);
        }
        let count = copy_front(&self.bytes.bytes()[self.at..], buffer, self.piece);
        self.at += count;
        Ok(count)
    }
}
