//! What the rest of the controller may know of a program: the trait of engines, which build texts,
//! change and carry them, and run scans of them. Its meaning is a function of texts and words.
#![tactic(auto)]

mod counting;
mod engine;
pub mod laws;
mod refusal;
mod verdict;

pub use counting::{CountEngine, CountProgram};
pub use engine::Engine;
pub use refusal::Refusal;
pub use tri_base::{TEXT_LIMIT, WORD_LIMIT};
pub use verdict::Verdict;

#[cfg(test)]
mod tests;
