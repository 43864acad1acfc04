//! The command line: `types`, `plan`, `run` and `compile` for programs of Standard ML, and `exec` for ELF files.
//!
//! It stands on the front end, on type inference and the text of types, on the passes behind it, on the machine, on ELF files, on the words of the command line and on the outside. Its main contract:
//! `smlc_main` answers each status exactly where its clause says, and what the program prints, or the text of its types or its plan, and nothing else, is written on `out`.
#![tactic(auto)]

pub mod build;
pub mod front;
pub mod laws;
pub mod plan;
pub mod top;
pub mod types;

pub use top::smlc_main;
