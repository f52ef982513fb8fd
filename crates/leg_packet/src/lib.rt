//! The packets that legs hand each other: readings, running results, and the word of a leg that
//! learns; how each is written, and what it reads as.
#![tactic(auto)]

mod heads;
pub mod laws;
mod packet;
mod pairs;
mod readings;
mod results;
mod sheet;
mod views;
mod writing;

pub use packet::{PACKET_WORDS, Packet};
pub use readings::read_in;
pub use results::read_out;
pub use sheet::OutSheet;
pub use views::{InView, OutView};
pub use writing::{write_in, write_learning, write_out};

#[cfg(test)]
mod tests;
