//! The conversion from `Lambda` to `Cps`.
//!
//! It stands on `convert_bodies` for the bodies of a program, on `convert_decide` for the rule of 16 words, on `convert_laws` and `convert_kept` for what the converted program keeps, on `cps_free`, `cps_ir`, `lambda_ir` and `smlc_base`, and on what these stand on. Its main contract: the tree of the program that `cps` answers is exactly the one that the definition makes of its argument, by the rule of 16 words.
//!
//! No function recurses by the length or the depth of a program: bodies are written one after another, and what stands in them waits as tasks.
#![tactic(auto)]

pub mod program;
pub mod whole;

pub use whole::cps;
