//! The engine of Structured Text over the programs of matrices: nothing is called.
#![tactic(auto)]

mod laws;

pub use laws::matrices_run;
