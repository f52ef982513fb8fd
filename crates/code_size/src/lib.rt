//! How many instructions the code of a program has, and how many a scan of it may take.
#![tactic(auto)]

mod arguments;
mod calls;
mod expression_costs;
mod labels;
mod limits;
mod loops;
mod paths;
mod sizes;
mod statement_costs;
mod statements;

pub use arguments::further_arguments;
pub use limits::TOLD_LIMIT;
pub use loops::{has_no_turn, step_of};
pub use sizes::{size_of_block, size_of_statement};
pub use statement_costs::cost_of_block;
pub use statements::behind_else;
