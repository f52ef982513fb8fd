//! The one controller without faults: it plays a script scan by scan, over any engine.
#![tactic(auto)]

mod face;
mod laws;
mod processor;
mod single;

pub use laws::has_the_text;
pub use single::{ScanOutcome, Single, start};
