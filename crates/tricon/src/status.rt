ghost use Rattle.std.specs.Prelude.{◌≡◌, ◌++◌, OnOk, OnErr};
ghost use Rattle.tri_base.specs.Rows.{KeepsRoom};
ghost use Rattle.tricon.specs.Statuses.{counted_text, refused_text, status_number, status_text, usage_text};

use crate::cause::push_cause;
use cause_effect::MatrixCause;
use engine_face::Refusal;
use itoa::Buffer;
use plant_script::ScriptCause;
use std::alloc::Global;
use tri_base::{NoMemory, Text, push_bytes, push_number};

/// Why a script or a matrix was refused.
#[derive(Clone, Copy, Debug, PartialEq, Eq)]
pub enum RefusedCause {
    /// The line is the first that no script has there.
    Script(ScriptCause),
    /// The block of program text that begins in the line is the first that is no program.
    Program(Refusal),
    /// The line is the first that no matrix has there.
    Matrix(MatrixCause),
    /// The program of the matrix has more bytes than a program may have. It is told at line 1.
    MatrixTooLarge {
        /// How many bytes the program has.
        bytes: usize,
    },
}

/// How a command ends.
#[derive(Clone, Copy, Debug, PartialEq, Eq)]
pub enum Status {
    /// The output was written whole; where three legs play, all scans are calm.
    Done,
    /// The words are no command.
    Usage,
    /// The script or the matrix is refused.
    Refused {
        /// The line, from 1.
        line: u32,
        /// Why it is refused.
        cause: RefusedCause,
    },
    /// The source failed.
    ReadFault,
    /// The sink failed.
    WriteFault,
    /// No memory was left.
    NoMemory,
    /// The output was written whole, and this is the first scan that isn't calm.
    DoneNotCalm {
        /// The scan, from 1.
        scan: u32,
    },
    /// The source held more than 1,048,576 bytes.
    ScriptTooLong,
    /// The leg of a letter of the schedule, the first such, can't step there.
    Stuck {
        /// The letter's number, from 1.
        index: u64,
    },
}

impl Status {
    /// The number with which the program ends.
    pub fn number(&self) -> u8
        ensures { result ≡ status_number self.now }
    {
        match self {
            Status::Done => 0,
            Status::Usage => 1,
            Status::Refused { .. } => 2,
            Status::ReadFault => 3,
            Status::WriteFault => 4,
            Status::NoMemory => 5,
            Status::DoneNotCalm { .. } => 6,
            Status::ScriptTooLong => 7,
            Status::Stuck { .. } => 8,
        }
    }
}

/// Adds the line that tells a status, all of it or nothing; for Done there is none. Room that the
/// text has is kept.
pub fn status_line(alloc: Global, status: &Status, text: &mut Text) -> Result<(), NoMemory>
    ensures line { OnOk result (text.new.list ≡ text.old.list ++ status_text status.now) }
    ensures room { KeepsRoom text.old text.new }
    ensures refused { OnErr result (text.new ≡ text.old) }
{
    match status {
        Status::Done => Ok(()),
        Status::Usage => push_usage(text),
        Status::Refused { line, cause } => push_refused(alloc, *line, cause, text),
        Status::ReadFault => push_bytes(text, b"read fault\n"),
        Status::WriteFault => push_bytes(text, b"write fault\n"),
        Status::NoMemory => push_bytes(text, b"no memory\n"),
        Status::DoneNotCalm { scan } => {
            push_counted(alloc, b"not calm at scan ", u64::from(*scan), text)
        }
        Status::ScriptTooLong => push_bytes(text, b"script too long\n"),
        Status::Stuck { index } => push_counted(alloc, b"stuck at step ", *index, text),
    }
}

/// Adds the line of the words that the program takes, all of it or nothing.
fn push_usage(text: &mut Text) -> Result<(), NoMemory>
    ensures line { OnOk result (text.new.list ≡ text.old.list ++ usage_text) }
    ensures room { KeepsRoom text.old text.new }
    ensures refused { OnErr result (text.new ≡ text.old) }
{
    push_bytes(
        text,
        b"usage: tricon play [summary | events | modbus] | solo [summary] | step | check \
        | matrix | make NUMBER SCANS\n",
    )
}

/// Adds a line of words and a number, all of it or nothing.
fn push_counted(alloc: Global, words: &[u8], number: u64, text: &mut Text) -> Result<(), NoMemory>
    ensures line { OnOk result (text.new.list ≡ text.old.list
        ++ counted_text words.now number) }
    ensures room { KeepsRoom text.old text.new }
    ensures refused { OnErr result (text.new ≡ text.old) }
{
    let mut whole = Text::new(alloc);
    push_bytes(&mut whole, words)?;
    let mut digits = Buffer::new();
    push_bytes(&mut whole, digits.format(number).as_bytes())?;
    push_bytes(&mut whole, b"\n")?;
    push_bytes(text, whole.bytes())
}

/// Adds the line of a refused script, all of it or nothing.
fn push_refused(
    alloc: Global,
    line: u32,
    cause: &RefusedCause,
    text: &mut Text,
) -> Result<(), NoMemory>
    ensures line { OnOk result (text.new.list ≡ text.old.list ++ refused_text line cause.now) }
    ensures room { KeepsRoom text.old text.new }
    ensures refused { OnErr result (text.new ≡ text.old) }
{
    let mut whole = Text::new(alloc);
    push_bytes(&mut whole, b"refused: line ")?;
    push_number(&mut whole, line as i64)?;
    push_bytes(&mut whole, b": ")?;
    push_cause(cause, &mut whole)?;
    push_bytes(&mut whole, b"\n")?;
    push_bytes(text, whole.bytes())
}
