//! What is proved of all matrices and their programs: nothing is called.
#![tactic(auto)]

mod laws;

pub use laws::{matrices_are_said, programs_do_steps, worked_matrix};
