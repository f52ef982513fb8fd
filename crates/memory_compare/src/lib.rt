//! What a running leg compares: its words before and after a scan, and its result with those of its
//! neighbours; and the window of its memory that a result shows.
#![tactic(auto)]

mod comparing;
mod judging;
pub mod laws;
mod stores;
mod windows;

pub use comparing::changes;
pub use judging::{Judgement, judge};
pub use stores::changes_of;
pub use windows::window;

#[cfg(test)]
mod tests;
