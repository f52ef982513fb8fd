//! The majority carries.
#![tactic(auto)]

pub mod laws;
