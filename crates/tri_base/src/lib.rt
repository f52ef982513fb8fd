//! The words that every other crate speaks: legs, lists with room, names, numbers, points and faults.
#![tactic(auto)]

mod faults;
mod judged;
mod leg;
mod limits;
mod memory;
mod name;
mod number;
mod point;
#[cfg(test)]
mod tests;
mod text;
mod touched;
mod voted;
mod words;

pub use faults::{LexCause, TypeCause, TypeFault};
pub use judged::Judged;
pub use leg::{Leg, Side, Triple};
pub use limits::{
    GREATEST_COUNT, LEAST_COUNT, SCAN_LIMIT, SCAN_TIME_LIMIT, TEXT_LIMIT, WORD_LIMIT,
};
pub use memory::NoMemory;
pub use name::Name;
pub use number::{push_number, read_number};
pub use point::{Point, PointKind};
pub use text::{Text, push_bytes};
pub use touched::Touched;
pub use voted::Voted;
pub use words::{Words, push_word};
