//! Writes the text of a plan: a line for each label and each class, the factor, and the words that are spilled.
//!
//! It stands on `close_laws` for plans and the definition of their text, on `lifetime_users` and `smlc_base`, and on `itoa`. Its main contract: `text_of` answers exactly that text.
#![tactic(auto)]

mod lines;
mod put;
pub mod text;

pub use text::text_of;
