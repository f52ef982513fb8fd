//! The front end of the compiler: a program's text is read, checked and laid out.
#![tactic(auto)]

mod front_end;
mod laws;

pub use front_end::front;
pub use laws::each_text_is_judged;
