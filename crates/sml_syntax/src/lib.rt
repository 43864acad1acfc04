//! The grammar of Core Standard ML, and a machine of symbols that reads it one terminal at a time.
//!
//! It stands on `sml_tree` and `smlc_base`. Its main contract: `move_at` answers the move of a symbol at a terminal.
#![tactic(auto)]

pub mod forms;
pub mod moves;
pub mod symbol;
mod tests_of;
