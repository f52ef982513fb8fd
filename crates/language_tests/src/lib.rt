//! Tests of the parser, the reader and the type checker, by tables of tokens and of texts. They
//! stand apart, since a crate with tests is proved twice.
#![tactic(auto)]

#[cfg(test)]
mod parsing;
#[cfg(test)]
mod reading;
#[cfg(test)]
mod typing;
