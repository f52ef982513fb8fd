//! The points of a chassis, found by name.
#![tactic(auto)]

mod points;
mod range;
mod table;

pub use points::{ChassisFault, is_input};
pub use range::fits;
pub use table::Chassis;

#[cfg(test)]
mod tests;
