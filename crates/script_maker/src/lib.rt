//! Scripts of any length that use all that a controller can hold, made from a number.
#![tactic(auto)]

mod draw;
mod laws;
mod moments;
mod plant;
mod program;
mod script;

pub use laws::generated_is_script;
pub use script::make_script;
