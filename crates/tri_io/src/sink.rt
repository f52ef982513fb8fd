/// A sink failed. It took nothing of what was offered.
#[derive(Clone, Copy, Debug, PartialEq, Eq)]
pub struct SinkFailed;

/// Where bytes go to the outside.
pub trait Sink {
    ghost use Rattle.std.specs.Prelude.{ℕ, List, Option, ◌<◌, ◌≤◌, length, IfOk};
    ghost use Rattle.tri_io.specs.FaultCounts.{HasCause};
    ghost use Rattle.tri_io.specs.SingleCalls.{Puts};

    /// The bytes taken so far, where the sink tells them.
    ghost taken: { Self → Option (List ℕ) };

    /// How often it has failed. The count stays at the last value of a `u64`.
    ghost faults: { Self → ℕ };

    /// Takes some of the first bytes, at least one where there are any, and answers how many.
    fn put(&mut self, bytes: &[u8]) -> Result<usize, SinkFailed>
        ensures within { IfOk result (λ n. n ≤ length bytes.now) }
        ensures some { 0 < length bytes.now → IfOk result (λ n. 0 < n) }
        ensures taken { Puts (taken self.old) (taken self.new) result bytes.now }
        ensures cause { HasCause (faults self.old) (faults self.new) result };
}
