//! Parses a Structured Text program: how deep its tokens nest, and the tree that spells them.
#![tactic(auto)]

mod bounds;
mod cursor;
mod declarations;
mod expressions;
mod fault;
mod laws;
mod many;
mod nesting;
mod parser;
mod program;
mod refusal;
mod statements;
mod tables;

pub use fault::ParseFault;
pub use laws::{nests_as_its_tokens, one_tree};
pub use nesting::first_too_deep;
pub use parser::parse;
