//! Lines of reports: words and numbers, the texts of refusals, and whether all was calm.
#![tactic(auto)]

mod calm;
mod line;
mod refusal;
#[cfg(test)]
mod tests;

pub use calm::push_calm;
pub use line::{push_led_line, push_line, push_spaced};
pub use refusal::push_refusal;
