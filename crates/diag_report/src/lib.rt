//! What a play of the three legs writes: the report, and its summary.
#![tactic(auto)]

mod count;
mod end;
mod judgement;
pub mod laws;
mod scan;
mod summary;
#[cfg(test)]
mod tests;

pub use end::write_end;
pub use scan::{write_head, write_scan};
pub use summary::write_summary;
