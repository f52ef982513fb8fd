use thiserror::Error;

/// Which rule of matrices a line breaks. A line that breaks several has the first of these.
#[derive(Clone, Copy, Debug, PartialEq, Eq)]
pub enum MatrixCause {
    /// The line's first word may not stand here.
    Word,
    /// The rest of the line hasn't its shape.
    Form,
    /// The name that the line declares is a reserved word of Structured Text.
    Reserved,
    /// The name is declared already, or the link is there already.
    Twice,
    /// The link's first name is no cause, or its second no effect.
    Unknown,
    /// There are 64 causes, for a cause, or 64 effects, for an effect.
    Full,
    /// The text ends too early.
    End,
}

/// Why a text was not read as a matrix.
#[derive(Clone, Copy, Debug, PartialEq, Eq, Error)]
pub enum MatrixFault {
    /// The text spells no matrix: the first line, from 1, that no matrix has there, and its first
    /// cause. A text that ends too early has the line behind its last.
    #[error("line {line}: {cause:?}")]
    At {
        /// The line's number, from 1.
        line: u32,
        /// The first rule that it breaks.
        cause: MatrixCause,
    },
    /// No memory was left for the matrix.
    #[error("no memory")]
    NoMemory,
}

/// Why the program of a matrix was not written.
#[derive(Clone, Copy, Debug, PartialEq, Eq, Error)]
pub enum ProgramFault {
    /// The program has more bytes than the text of a program may have.
    #[error("{bytes} bytes")]
    TooLarge {
        /// How many bytes it has.
        bytes: usize,
    },
    /// No memory was left for the program.
    #[error("no memory")]
    NoMemory,
}

/// Why a line was not taken.
#[derive(Clone, Copy, Debug, PartialEq, Eq)]
pub enum LineFault {
    Cause(MatrixCause),
    NoMemory,
}
