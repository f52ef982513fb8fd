//! What `check` tells of a script's program and downloads.
#![tactic(auto)]

mod check_text;

pub use check_text::write_check;
