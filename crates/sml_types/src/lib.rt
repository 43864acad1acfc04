//! Types as numbered forms, type schemes, the tables of type names, and what a typing of a bare tree is.
//!
//! It stands on `sml_tree` and `smlc_base`. Its main contract: in `Types` the parts of a form have smaller numbers than the form and one number has one type variable, so that each number means one finite tree, which a later form never changes.
#![tactic(auto)]

pub mod laws;
pub mod scheme;
pub mod tables;
pub mod typed;
pub mod types;

pub use laws::tables_are_few;
pub use scheme::{NameScheme, Scheme};
pub use tables::{ConRow, Equality, Tables, TypeName};
pub use typed::Typed;
pub use types::{Field, Ty, TyForm, TyVar, Types};
