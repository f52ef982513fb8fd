//! Cause and effect matrices: a matrix is read from its text, and written as a Structured Text
//! program that does what it says.
#![tactic(auto)]

mod fault;
mod keyword;
mod matrix;
mod program;
mod read;
mod reader;
mod statement;
#[cfg(test)]
mod tests;
mod words;

pub use fault::{MatrixCause, MatrixFault, ProgramFault};
pub use matrix::{Level, Link, Matrix, Mode};
pub use program::write_program;
pub use read::read_matrix;
