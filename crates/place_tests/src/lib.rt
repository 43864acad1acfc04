//! Tests of placing, in a crate of their own: a crate with tests is proved twice, and what is below isn't proved again here.
//!
//! It stands on `reg_spill`, on what that stands on, and has no contract.
#![tactic(auto)]

#[cfg(test)]
mod wide;
