ghost use Rattle.std.specs.Prelude.{◌≡◌};

use crate::front::copy_front;
use crate::source::{Source, SourceFailed};
use std::marker::Model;
use tri_base::Text;

/// Bytes in memory that are given without a failure, as many at a time as the buffer holds.
#[derive(Drop)]
pub struct SureSource {
    bytes: Text,
    at: usize,
}

impl Model for SureSource {
    ghost use Rattle.std.specs.Prelude.{ℕ, List, drop, length, ◌≤◌};

    ghost Value = { List ℕ };

    ghost view = { λ s. drop s.at s.bytes.list };

    ghost invariant = { λ s. s.at ≤ length s.bytes.list };
}

impl SureSource {
    /// A source that has these bytes.
    pub fn new(bytes: Text) -> SureSource
        ensures { result ≡ bytes.list }
    {
        SureSource { bytes, at: 0 }
    }
}

impl Source for SureSource {
    ghost use Rattle.std.specs.Prelude.{◌≡◌, ◌≤◌, Some, Ok, length, min, drop, IfOk};
    ghost use Rattle.tri_io.specs.FaultCounts.{HasCause};
    ghost use Rattle.tri_io.specs.SingleCalls.{Reads};

    ghost left = { λ s. Some s };

    ghost faults = { λ _. 0 };

    fn read(&mut self, buffer: &mut [u8]) -> Result<usize, SourceFailed>
        ensures within { IfOk result (λ n. n ≤ length buffer.new) }
        ensures bytes { Reads (Some self.old) (Some self.new) result buffer.new }
        ensures cause { HasCause 0 0 result }
        ensures count { result ≡ Ok (min (length buffer.new) (length self.old)) }
        ensures rest { self.new ≡ drop (length buffer.new) self.old }
    {
        let rest = &self.bytes.bytes()[self.at..];
        let count = copy_front(rest, buffer, usize::MAX);
        self.at += count;
        Ok(count)
    }
}
