//! How a leg that was replaced, or lost a judgement, learns the memory of its two neighbours:
//! window by window, from the results that both of them show.
#![tactic(auto)]

mod filling;
mod header;
pub mod laws;
mod learner;
mod progress;
mod rooms;
mod shown;
mod teaching;

pub use learner::Learner;
pub use progress::{Image, Progress};

#[cfg(test)]
mod tests;
