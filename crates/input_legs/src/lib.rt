//! What three legs read: the vote over their packets, and which legs disagree with it.
#![tactic(auto)]

mod alike;
mod discrepancy;
pub mod laws;
mod sheet;
mod shown;
#[cfg(test)]
mod tests;

pub use discrepancy::Discrepancy;
pub use sheet::vote_sheet;
