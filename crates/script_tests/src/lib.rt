//! Tests of the script's reader, of its canonical text and of generated scripts. They stand apart,
//! since a crate with tests is proved twice.
#![tactic(auto)]

#[cfg(test)]
mod making;
#[cfg(test)]
mod reading;
#[cfg(test)]
mod writing;
