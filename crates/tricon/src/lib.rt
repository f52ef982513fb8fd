//! The commands of the controller: its words, what each reads and writes, and how it ends.
#![tactic(auto)]

mod at_desk;
mod at_station;
mod cause;
mod command;
pub mod laws;
mod making;
mod players;
mod playing;
mod running;
mod status;

pub use at_desk::desk;
pub use at_station::station;
pub use cause_effect::MatrixCause;
pub use command::Command;
pub use leg_workers::Gate;
pub use plant_script::ScriptCause;
pub use status::{RefusedCause, Status, status_line};

#[cfg(test)]
mod tests;
