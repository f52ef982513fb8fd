ghost use Rattle.std.specs.Prelude.{OnOk, OnErr};
ghost use Rattle.tri_io.specs.FaultCounts.{HasCause};
ghost use Rattle.tri_io.specs.WholeStreams.{PutsAll, PutsSome};

use crate::piece::PIECE;
use crate::sink::{Sink, SinkFailed};

/// Puts all the bytes, in pieces of 4,096 of the whole, of which the last may be shorter. A sink
/// that takes less of a piece is offered the rest of it, and no empty piece is offered. It takes
/// no memory.
pub fn write_all<K: Sink>(sink: &mut K, bytes: &[u8]) -> Result<(), SinkFailed>
    ensures all { OnOk result (PutsAll (K.taken sink.old) (K.taken sink.new) bytes.now) }
    ensures not_all { OnErr result (PutsSome (K.taken sink.old) (K.taken sink.new) bytes.now) }
    ensures cause { HasCause (K.faults sink.old) (K.faults sink.new) result }
{
    let mut at = 0;
    while at < bytes.len() {
        let rest = &bytes[at..];
        let piece = rest.len().min(PIECE - at % PIECE);
        at += sink.put(&rest[..piece])?;
    }
    Ok(())
}
