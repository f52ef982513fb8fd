//! What a leg tells of its scans: the note of each scan, how it ends, the history of what was
//! judged, and the alarms of a scan.
#![tactic(auto)]

mod alarms;
mod history;
pub mod laws;
mod note;

pub use alarms::{Alarms, alarms_of};
pub use engine_face::Verdict;
pub use history::{Entry, History};
pub use note::{Ending, Note};

#[cfg(test)]
mod tests;
