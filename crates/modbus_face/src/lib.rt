//! Answers to Modbus requests from the voted memory.
#![tactic(auto)]

mod data;
mod frame;
pub mod laws;
mod line;
mod reads;
mod reply;
#[cfg(test)]
mod tests;

pub use line::write_reply_line;
pub use reply::answer;
