//! Tests of what three workers do while they run, which no clause says. It has nothing but tests.
#![tactic(auto)]

#[cfg(test)]
mod tests;
