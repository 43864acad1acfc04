//! Parts of type inference: what may be generalised, the types of the library, instances of types with variables, the types that written types mean, and the datatypes that admit equality.
//!
//! It stands on `sml_types`, `sml_unify`, `sml_tree` and `smlc_base`. Its main contract: `instance` answers a copy of a type with new variables that, under each substitution that keeps the marks, is an instance of the scheme.
#![tactic(auto)]

pub mod copy;
pub mod equality;
pub mod given;
pub mod held;
pub mod instance;
pub mod library;
pub mod plain;
mod segment;
pub mod written;

pub use held::covers;
pub use library::{LibraryTypes, make_library};
pub use plain::non_expansive;
