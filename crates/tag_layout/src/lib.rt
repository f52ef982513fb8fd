//! Where the tags of a program lie in the words of its memory, and what the words are at first.
#![tactic(auto)]

mod fault;
mod first;
pub mod laws;
mod layout;
mod names;
mod placed;
mod tags;
mod types;

pub use fault::LayFault;
pub use layout::{Layout, lay};
pub use placed::PlacedTag;

#[cfg(test)]
mod tests;
