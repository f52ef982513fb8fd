//! The values of BOOL, INT and DINT, how they are computed, and the standard function blocks over
//! them.
#![tactic(auto)]

mod arithmetic;
mod blocks;
mod counters;
mod fields;
mod kinds;
mod latches;
mod reading;
mod timers;

pub use arithmetic::{Computed, bounded, exact, quotient, remainder};
pub use blocks::{BlockKind, step_block};
pub use fields::{BlockField, Role, field_at, field_count, input_named, output_named};
pub use kinds::{Kind, clamp_to, is_on};

#[cfg(test)]
mod tests;
