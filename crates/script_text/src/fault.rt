use chassis::ChassisFault;
use thiserror::Error;

/// Which rule of scripts a line breaks.
#[derive(Clone, Copy, Debug, PartialEq, Eq)]
pub enum ScriptCause {
    /// The line's first word may not stand here.
    Word,
    /// The rest of the line hasn't its shape.
    Form,
    /// The chassis can't have the point. It is never for want of memory.
    Chassis(ChassisFault),
    /// The scan of an AT line is below 1, not above the one before it, or above the number of
    /// scans.
    Order,
    /// The name is none of an input.
    Point,
    /// A number lies outside its limits, or its point's range.
    Range,
    /// The scan has a download already.
    Second,
    /// The text ends too early.
    End,
}

/// Why a text was not read as a script.
#[derive(Clone, Copy, Debug, PartialEq, Eq, Error)]
pub enum ScriptFault {
    /// The text spells no script: the first line, from 1, that no script has there, and its first
    /// cause. A text that ends too early has the line behind its last.
    #[error("line {line}: {cause:?}")]
    At {
        /// The line's number, from 1.
        line: u32,
        /// The first rule that it breaks.
        cause: ScriptCause,
    },
    /// No memory was left for the script.
    #[error("no memory")]
    NoMemory,
}

/// Why a line was not taken.
#[derive(Clone, Copy, Debug, PartialEq, Eq)]
pub enum LineFault {
    Cause(ScriptCause),
    NoMemory,
}
