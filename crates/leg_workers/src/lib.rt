//! Three legs that play over the bus, each worked by a thread of its own where one can be started.
#![tactic(auto)]

mod gate;
mod hearing;
mod on_threads;
mod pages;
mod playing;
mod printer;
mod printing;
mod printing_threads;
mod rounds;
mod serving;
mod standing_in;
mod start;
mod teller_worker;
mod telling;
mod worker;
mod working;

pub use gate::Gate;
pub use playing::play_legs;
pub use printer::Printer;
pub use printing::play_printed;
pub use working::work;
