//! Three legs and the six boxes between them, played in one thread in any order of steps.
#![tactic(auto)]

mod lockstep;
mod serving;

pub use lockstep::Lockstep;
pub use serving::NotEnabled;
