//! The commands that read a script: what each writes of it, over any engine.
#![tactic(auto)]

mod blocks;
mod script_command;
mod single;
mod step;
mod workers;

pub use script_command::{Output, PlayCommand, Refused, ScriptCommand, SingleCommand};
pub use single::play_single;
pub use step::play_step;
pub use workers::play_workers;
