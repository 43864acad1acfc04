//! Large programs of Standard ML, made by a number and a size: chains of functions with sums, folds and exceptions, for measurements.
//!
//! It stands on `smlc_base` and on `itoa`. Its main contract: `program` answers exactly the text of the definition.
#![tactic(auto)]

pub mod form;
mod lines;
pub mod whole;

pub use whole::program;
