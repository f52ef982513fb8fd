//! What runs of the one controller write: the report, and its summary.
#![tactic(auto)]

mod solo;
mod summary;

pub use solo::write_solo;
pub use summary::write_solo_summary;
