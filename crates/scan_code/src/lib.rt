//! From well-typed programs to verified code of the scan machine.
#![tactic(auto)]

mod blocks;
mod code;
mod compiling;
mod expressions;
mod fields;
mod found;
mod functions;
mod labels;
mod operators;
mod own_types;
mod statements;

pub use compiling::{COST_LIMIT, CodeFault, compile};
