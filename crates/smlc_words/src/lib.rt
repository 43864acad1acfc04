//! The words of the command line, read whole and exactly.
//!
//! It stands on what all parts of the compiler speak of. Its main contract: `command` answers what the words ask, and None exactly
//! where they ask nothing.
#![tactic(auto)]

pub mod arguments;
pub mod asked;
pub mod flag;
pub mod laws;
pub mod value;
pub mod words;

pub use asked::Command;
pub use flag::Flag;
pub use words::command;
