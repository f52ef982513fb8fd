//! The scan machine: instructions over a list of words, the rules that code has to keep, and the
//! run of code that keeps them.
#![tactic(auto)]

mod clamping;
mod counting;
mod depths;
mod instructions;
mod jumps;
mod laws;
mod machine;
mod memory;
mod operations;
mod rules;
mod running;
mod stack;
mod verified;

pub use crate::counting::Steps;
pub use crate::instructions::Instr;
pub use crate::laws::{has_noted_stores, has_one_run};
pub use crate::running::run;
pub use crate::verified::{BadCode, Code, CodeRule};
pub use function_blocks::{BlockKind, Kind, step_block};

#[cfg(test)]
mod tests;
