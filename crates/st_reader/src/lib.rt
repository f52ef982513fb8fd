//! Reads a Structured Text program: bytes to tokens, and tokens to the tree that spells them.
#![tactic(auto)]

mod fault;
mod item;
mod laws;
mod lexer;
mod numeral;
mod reader;
mod words;

pub use fault::ReadFault;
pub use laws::one_lexing;
pub use lexer::lex;
pub use reader::read_program;
pub use st_parser::{nests_as_its_tokens, one_tree};
