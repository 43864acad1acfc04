//! What conversion to `Cps` asks of each term of a program, and which frames have functions of their own by the rule of 16 words.
//!
//! It stands on `convert_laws` for what that is, on `lambda_ir`, `prim_meaning`, `sml_tree` and `smlc_base`. Its main contract: `own_by_16` answers for each term exactly whether the rule of 16 words gives its frame a function of its own.
#![tactic(auto)]

pub mod decide;
pub mod sizes;
pub mod table;

pub use decide::{own_by_16, takes_one};
pub use table::{Fact, facts};
