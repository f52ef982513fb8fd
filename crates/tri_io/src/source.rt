/// A source failed. What it had is still there.
#[derive(Clone, Copy, Debug, PartialEq, Eq)]
pub struct SourceFailed;

/// Bytes from outside.
pub trait Source {
    ghost use Rattle.std.specs.Prelude.{ℕ, List, Option, ◌≤◌, length, IfOk};
    ghost use Rattle.tri_io.specs.FaultCounts.{HasCause};
    ghost use Rattle.tri_io.specs.SingleCalls.{Reads};

    /// The bytes left, where the source tells them.
    ghost left: { Self → Option (List ℕ) };

    /// How often it has failed. The count stays at the last value of a `u64`.
    ghost faults: { Self → ℕ };

    /// Moves some of the first bytes into the front of the buffer, and answers how many. 0 into a
    /// buffer that isn't empty means the end.
    fn read(&mut self, buffer: &mut [u8]) -> Result<usize, SourceFailed>
        ensures within { IfOk result (λ n. n ≤ length buffer.new) }
        ensures bytes { Reads (left self.old) (left self.new) result buffer.new }
        ensures cause { HasCause (faults self.old) (faults self.new) result };
}
