//! Programs of prints: what their bare tree says, and straight code that prints it.
//!
//! It stands on the bare tree, on the instructions, on ELF files, and on the machine and `smlc_jobs` for what a run is. Its main contract: the image that `make`
//! answers prints the text that it is made for, and nothing else.
#![tactic(auto)]

pub mod code;
pub mod laws;
pub mod plain;
