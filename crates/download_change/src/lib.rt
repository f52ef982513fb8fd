//! What a download keeps: which renames of tags are wrong, which tag has another type, and with
//! which words the new program goes on.
#![tactic(auto)]

mod carrying;
mod changed;
mod fault;
mod heirs;
mod kept;
pub mod laws;
mod rename_table;
mod types;

pub use carrying::carry;
pub use changed::matches;
pub use fault::{RenameFault, renames_fault};

#[cfg(test)]
mod tests;
