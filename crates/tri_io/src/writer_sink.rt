ghost use Rattle.std.specs.Prelude.{◌≡◌};

use crate::sink::{Sink, SinkFailed};
use std::io::Write;
use std::marker::Model;

/// A writer as a sink, written through. As a sink it doesn't tell what it took; its own clause
/// `written` speaks of the bytes that the writer holds, where the writer tells them.
#[derive(Drop)]
pub struct WriterSink<W: Write + Drop> {
    output: W,
    faults: u64,
}

impl<W: Write + Drop> Model for WriterSink<W> {
    ghost use Rattle.tri_io.specs.WrappedStreams.{StreamValue};

    ghost Value = { StreamValue };

    ghost view = { λ s. record { bytes = W.contents s.output; faults = s.faults } };
}

impl<W: Write + Drop> WriterSink<W> {
    /// A writer that has not failed yet.
    pub fn new(output: W) -> WriterSink<W>
        ensures { result ≡ record { bytes = W.contents output; faults = 0 } }
    {
        WriterSink { output, faults: 0 }
    }
}

impl<W: Write + Drop> Sink for WriterSink<W> {
    ghost use Rattle.std.specs.Prelude.{◌≡◌, ◌<◌, ◌≤◌, None, length, IfOk};
    ghost use Rattle.std.specs.Io.KnownBytes.{WriteAppends};
    ghost use Rattle.tri_io.specs.FaultCounts.{HasCause, count_after};
    ghost use Rattle.tri_io.specs.SingleCalls.{Puts};

    ghost taken = { λ _. None };

    ghost faults = { λ s. s.faults };

    fn put(&mut self, bytes: &[u8]) -> Result<usize, SinkFailed>
        ensures within { IfOk result (λ n. n ≤ length bytes.now) }
        ensures some { 0 < length bytes.now → IfOk result (λ n. 0 < n) }
        ensures taken { Puts None None result bytes.now }
        ensures cause { HasCause self.old.faults self.new.faults result }
        ensures count { self.new.faults ≡ count_after self.old.faults result }
        ensures written { WriteAppends self.old.bytes self.new.bytes result bytes.now }
    {
        match self.output.write(bytes) {
            Ok(count) if count > 0 || bytes.is_empty() => Ok(count),
            _ => {
                self.faults = self.faults.saturating_add(1);
                Err(SinkFailed)
            }
        }
    }
}
