//! The text in which the types of a program's names are shown.
//!
//! It stands on `sml_types`, `sml_tree` and `smlc_base`, and on `indexmap` and `itoa`. Its main contract: `lines` answers exactly the lines of the definition in `specs/Text.antt`.
#![tactic(auto)]

pub mod level;
mod parts;
mod show;
mod text;
mod work;
mod written;

pub use level::Level;
pub use text::lines;
