//! The library: its text, what stands in scope before every program, and the table of long identifiers.
//!
//! It stands on `sml_tree` and `smlc_base`. Its main contract: `value_of` answers what the table of values has for a text.
#![tactic(auto)]

pub mod entry;
pub mod long;
pub mod text;
pub mod types;
pub mod values;

pub use long::{long_identifiers, short_of};
pub use text::library;
pub use types::{BaseType, type_of};
pub use values::{Value, is_function, takes_argument, value_of};
