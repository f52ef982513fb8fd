//! The lines of a script one by one: the lines of a text, the words of a line, and what a line says
//! by itself.
#![tactic(auto)]

mod block;
mod keyword;
mod legs;
mod lines;
mod numbers;
mod operands;
mod plant;
mod statement;
mod words;

pub use block::Block;
pub use keyword::{Keyword, Part, follows, keyword_part, read_keyword};
pub use legs::Legs;
pub use lines::{content, cut_line};
pub use numbers::Numbers;
pub use statement::{Statement, is_comment, read_statement};
pub use words::cut_word;
