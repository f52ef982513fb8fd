//! A play of a script by three legs, each worked by a thread of its own where one can be started.
#![tactic(auto)]

mod play;

pub use play::play_script;
