//! The middle of the compiler, from a typed tree to its program in continuation-passing style with nothing left to contract.
//!
//! It stands on `lambda_make`, `cps_convert` and `cps_contract` for the passes, on `lambda_ends` and `convert_points` for what each may take of its argument, and on what these stand on. Its main contract: the tree of what `contracted_program` answers is exactly what the definitions of the three passes make of the typed tree.
#![tactic(auto)]

pub mod middle;

pub use middle::contracted_program;
