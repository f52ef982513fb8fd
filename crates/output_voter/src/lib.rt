//! The vote of three legs' drives: what the field outputs are.
#![tactic(auto)]

mod drive;
pub mod laws;
#[cfg(test)]
mod tests;
mod voter;
mod word;

pub use voter::vote_drives;
