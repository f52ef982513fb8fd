//! The three shorter texts of a play of a script by three legs: its summary, its events, and the
//! replies to its requests.
#![tactic(auto)]

mod events;
mod outputs;
mod replies;
mod summary;

pub use events::write_play_events;
pub use replies::write_play_replies;
pub use summary::write_play_summary;
