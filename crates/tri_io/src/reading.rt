ghost use Rattle.std.specs.Prelude.{◌≡◌, ◌⊎◌, ◌≤◌, ◌<◌, length, IfOk, IsErr, IfSome, IsErrOf};
ghost use Rattle.tri_io.specs.FaultCounts.{Rose};
ghost use Rattle.tri_io.specs.WholeStreams.{TakesAll, TakesPast, TakesFront};

use crate::piece::PIECE;
use crate::source::Source;
use std::alloc::Global;
use thiserror::Error;
use tri_base::{Text, push_bytes};

/// Why a source was not read to its end.
#[derive(Clone, Copy, Debug, PartialEq, Eq, Error)]
pub enum ReadAll {
    /// The source failed.
    #[error("the source failed")]
    Failed,
    /// More bytes than the limit are there.
    #[error("more bytes than the limit")]
    TooLong,
    /// No memory was left for the bytes.
    #[error("no memory")]
    NoMemory,
}

/// All bytes up to the end of the source, which are at most `limit`. It takes no more than
/// `limit + 1` bytes from the source, in pieces of up to 4,096. The first read that fails ends it.
pub fn read_all<S: Source>(alloc: Global, source: &mut S, limit: usize) -> Result<Text, ReadAll>
    ensures all { IfOk result (λ text.
        TakesAll (S.left source.old) (S.left source.new) text.list) }
    ensures within { IfOk result (λ text. length text.list ≤ limit) }
    ensures too_long { IsErrOf result ReadAll.TooLong
        → TakesPast limit (S.left source.old) (S.left source.new) }
    ensures past_limit { IfSome (S.left source.old) (λ bytes.
        limit < length bytes → IsErr result) }
    ensures failed { IsErrOf result ReadAll.Failed
        → Rose (S.faults source.old) (S.faults source.new) }
    ensures front_at_failed { IsErrOf result ReadAll.Failed
        → TakesFront limit (S.left source.old) (S.left source.new) }
    ensures front_at_no_memory { IsErrOf result ReadAll.NoMemory
        → TakesFront limit (S.left source.old) (S.left source.new) }
    ensures never_falls { S.faults source.old ≤ S.faults source.new }
    ensures steady { IsErrOf result ReadAll.Failed
        ⊎ (S.faults source.new ≡ S.faults source.old) }
{
    let mut text = Text::new(alloc);
    let mut buffer = [0; PIECE];
    let mut allowed = limit;
    loop {
        let most = allowed.saturating_add(1).min(PIECE);
        let Ok(count) = source.read(&mut buffer[..most]) else {
            return Err(ReadAll::Failed);
        };
        if count == 0 {
            return Ok(text);
        }
        if count > allowed {
            return Err(ReadAll::TooLong);
        }
        push_bytes(&mut text, &buffer[..count]).map_err(|_| ReadAll::NoMemory)?;
        allowed -= count;
    }
}
