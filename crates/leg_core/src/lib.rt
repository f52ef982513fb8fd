//! A leg as code: it is served need by need, and takes no memory in a scan in which it builds no
//! program.
#![tactic(auto)]

pub mod laws;
mod leg_run;

pub use fault_history::{Ending, Note};
pub use leg_laws::Need;
pub use leg_run::LegRun;
