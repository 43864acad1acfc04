//! Tests of the middle of the compiler, in a crate of their own: a crate with tests is proved twice, and what is below isn't proved again here.
//!
//! It stands on `match_compile`, on what that stands on, and has no contract.
#![tactic(auto)]

#[cfg(test)]
mod matches;
