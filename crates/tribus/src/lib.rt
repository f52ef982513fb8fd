//! The boxes between threads: six of one packet each, between the three legs, and one of four notes
//! from a leg to its printer. What was taken out of a box is the beginning of what was put into it.
#![tactic(auto)]

mod bus;
mod link;
mod note_link;
mod post;
mod rule;
mod sent;
mod settled;

pub use bus::{Bus, open_bus};
pub use note_link::{NoteIn, NoteLink, NoteOut, NoteSettled, Told};
pub use post::Post;
pub use settled::Settled;

#[cfg(test)]
mod tests;
