//! Tests of the command line, in a crate of their own: a crate with tests is proved twice, and what is below isn't proved again here.
//!
//! It stands on `smlc_top`, `smlc_words` and `smlc_edge`, and has no contract.
#![tactic(auto)]

#[cfg(test)]
mod calls;
#[cfg(test)]
mod commands;
#[cfg(test)]
mod hostile;
#[cfg(test)]
mod texts;
#[cfg(test)]
mod words;
