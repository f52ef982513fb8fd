//! The engine of Structured Text: it reads, checks and compiles programs, changes them, and runs
//! their scans.
#![tactic(auto)]

mod building;
mod changing;
mod engine;
mod laws;
mod marked_chassis;
mod program;
mod scanning;

pub use engine::StEngine;
pub use laws::{
    each_text_is_judged, outputs_are_of_words, programs_hold_values, scans_are_runs,
    words_hold_values,
};
pub use program::StProgram;
