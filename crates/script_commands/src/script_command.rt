use engine_face::Refusal;
use tri_base::Text;

/// A command that reads a script.
#[derive(Clone, Copy, Debug, PartialEq, Eq)]
pub enum ScriptCommand {
    /// One of the one controller without faults.
    Single(SingleCommand),
    /// The report of three legs that are played step by step.
    Step,
    /// One of three legs that play on three threads.
    Play(PlayCommand),
}

/// A command that plays or checks the one controller.
#[derive(Clone, Copy, Debug, PartialEq, Eq)]
pub enum SingleCommand {
    /// Its report.
    Solo,
    /// The summary of it.
    SoloSummary,
    /// The sizes of the program and of each download, or why it is refused.
    Check,
}

/// A command that plays three legs on three threads.
#[derive(Clone, Copy, Debug, PartialEq, Eq)]
pub enum PlayCommand {
    /// Their report.
    Report,
    /// The summary of it.
    Summary,
    /// The changes of the discrete points, in order.
    Events,
    /// The replies to the Modbus requests.
    Modbus,
}

/// What a command writes of a script.
#[derive(Drop)]
pub struct Output {
    /// The text.
    pub text: Text,
    /// Of three legs the first scan that isn't calm, from 1; None where all are, and for the
    /// one controller.
    pub uncalm: Option<u32>,
}

/// Why nothing is written of a script.
#[derive(Clone, Copy, Debug, PartialEq, Eq)]
pub enum Refused {
    /// The TEXT block or a SWAP block, the first in their order, is no program.
    Block {
        /// The line of the block's first word, from 1.
        line: u32,
        /// Why it is none.
        refusal: Refusal,
    },
    /// The leg of this letter of the schedule, counted from 1, can't step there.
    Stuck {
        /// The letter's number.
        letter: u64,
    },
    /// There is no memory.
    NoMemory,
}
