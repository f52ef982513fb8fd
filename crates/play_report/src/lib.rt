//! A play of a script by three legs: how they start, and what the report tells of what they note,
//! mark and end with.
#![tactic(auto)]

mod ending;
mod marks;
mod notes;
mod report;
mod scans;
mod start;
mod starved;

pub use ending::write_ending;
pub use notes::{note_of_scan, vote_outputs};
pub use report::write_report;
pub use scans::{ScanTeller, write_scans};
pub use start::start_legs;
pub use starved::some_leg_starves;
