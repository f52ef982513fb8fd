ghost use Rattle.std.specs.Prelude.{◌≡◌};

use crate::source::{Source, SourceFailed};
use std::io::Read;
use std::marker::Model;

/// A reader as a source. As a source it doesn't tell what it has; its own clause `given` speaks of
/// the bytes that the reader will give, where the reader tells them.
#[derive(Drop)]
pub struct ReaderSource<R: Read + Drop> {
    input: R,
    faults: u64,
}

impl<R: Read + Drop> Model for ReaderSource<R> {
    ghost use Rattle.tri_io.specs.WrappedStreams.{StreamValue};

    ghost Value = { StreamValue };

    ghost view = { λ s. record { bytes = R.remaining s.input; faults = s.faults } };
}

impl<R: Read + Drop> ReaderSource<R> {
    /// A reader that has not failed yet.
    pub fn new(input: R) -> ReaderSource<R>
        ensures { result ≡ record { bytes = R.remaining input; faults = 0 } }
    {
        ReaderSource { input, faults: 0 }
    }
}

impl<R: Read + Drop> Source for ReaderSource<R> {
    ghost use Rattle.std.specs.Prelude.{◌≡◌, ◌≤◌, None, length, IfOk};
    ghost use Rattle.std.specs.Io.KnownBytes.{ReadConsumes};
    ghost use Rattle.tri_io.specs.FaultCounts.{HasCause, count_after};
    ghost use Rattle.tri_io.specs.SingleCalls.{Reads};

    ghost left = { λ _. None };

    ghost faults = { λ s. s.faults };

    fn read(&mut self, buffer: &mut [u8]) -> Result<usize, SourceFailed>
        ensures within { IfOk result (λ n. n ≤ length buffer.new) }
        ensures bytes { Reads None None result buffer.new }
        ensures cause { HasCause self.old.faults self.new.faults result }
        ensures count { self.new.faults ≡ count_after self.old.faults result }
        ensures given { ReadConsumes self.old.bytes self.new.bytes result buffer.new }
    {
        match self.input.read(buffer) {
            Ok(count) => Ok(count),
            Err(_) => {
                self.faults = self.faults.saturating_add(1);
                Err(SourceFailed)
            }
        }
    }
}
