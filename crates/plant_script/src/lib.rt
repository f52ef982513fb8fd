//! The script over an engine: which of its blocks the engine refuses, and how far a play of it is
//! calm.
#![tactic(auto)]

mod countdown;
mod faces;
mod laws;
mod refused;
mod single_text;
mod uncalm;

pub use chassis::Chassis;
pub use laws::refused_blocks_are_no_programs;
pub use refused::{first_refused, first_refused_swap};
pub use script_text::{
    Act, Moment, ScanLine, Script, ScriptCause, ScriptFault, Setting, Tape, read_script,
};
pub use single_text::{built, judged, recovery_span, windows};
pub use uncalm::first_uncalm;
