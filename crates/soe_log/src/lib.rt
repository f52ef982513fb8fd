//! A sequence of events recorder: each change of a discrete point, once, in the order of scans and
//! then of the chassis.
#![tactic(auto)]

mod discrete;
mod event;
pub mod laws;
mod log;
mod recorder;
#[cfg(test)]
mod tests;
mod text;

pub use event::Event;
pub use recorder::Recorder;
pub use text::write_events;
