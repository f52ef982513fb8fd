//! A play of a script by three legs in one thread, step by step, and its report.
#![tactic(auto)]

mod run;
mod step_play;

pub use step_play::{NotStepped, Stepped, step_script};
