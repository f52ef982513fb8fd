//! The words that stand for points: which words of a program's memory are set from the inputs, and
//! which give the outputs.
#![tactic(auto)]

pub mod by_name;
mod inputs;
pub mod laws;
mod names;
mod outputs;
mod point_mark;
mod tables;
mod wiring;

pub use point_mark::PointMark;
pub use wiring::Wiring;

#[cfg(test)]
mod tests;
