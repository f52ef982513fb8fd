//! Tests of the compiler on the texts of whole programs. It has nothing but tests.
#![tactic(auto)]

#[cfg(test)]
mod tests;
