//! What the expansion from the parse tree to the bare tree is, and what its code stands on.
//!
//! It stands on `sml_prelude`, `sml_tree`, `smlc_base` and `indexmap`. Its main contract: `link` answers the numbered nodes of the trees that its marks spell.
//!
//! `specs/` has the definition of the whole expansion (`Programs`, `expansion`). `parsed` reads the parse tree by number, `scoped` binds numbers and takes bindings back, `made` keeps what is made beside nodes with the least refusal, `walk` is the state of it all, `mark` makes numbered nodes of a list of marks, `labels` orders labels and makes fields, and `once` finds names and labels that stand twice, and `long_identifiers` binds the library's long names.
#![tactic(auto)]

pub mod base;
pub mod labels;
pub mod long_identifiers;
pub mod made;
pub mod mark;
pub mod meaning;
pub mod number;
pub mod once;
pub mod parsed;
mod parts;
pub mod refusals;
pub mod scope;
pub mod scoped;
pub mod starts;
pub mod walk;

pub use made::Made;
pub use mark::{Mark, link};
pub use meaning::{Meaning, TypeMeaning};
pub use parsed::Parsed;
pub use scope::{Bindings, Bound, Ident};
pub use scoped::Scoped;
pub use walk::Walk;
