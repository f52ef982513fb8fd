//! The type checker of Structured Text programs: is a program well typed, and if not, which typing
//! rule does it break first, and where.
#![tactic(auto)]

mod assignments;
mod calls;
mod checker;
mod declarations;
mod expressions;
mod fault;
mod finding;
mod first;
mod functions;
mod join;
mod labels;
mod literals;
mod loops;
mod names;
mod points;
mod statements;
mod tags;
mod values;

pub use checker::check;
pub use fault::CheckFault;
