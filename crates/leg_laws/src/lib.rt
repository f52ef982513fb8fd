//! A leg, three legs in step and the boxes between them, as definitions, and the laws of all plays.
#![tactic(auto)]

pub mod laws;
mod need;
mod place;

pub use need::Need;
pub use place::Place;
