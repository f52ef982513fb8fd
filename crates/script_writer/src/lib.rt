//! The canonical text of a script.
#![tactic(auto)]

mod laws;
mod line;
mod script;
mod word;

pub use laws::canonical_text_is_read;
pub use script::write_script;
