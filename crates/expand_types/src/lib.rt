//! Types, type variables, and type, datatype and exception declarations, from the parse tree to the bare tree.
//!
//! It stands on `sml_expansion`, `sml_prelude`, `sml_tree` and `smlc_base`. Its main contracts are equations: each call answers its definition in `specs/` of `sml_expansion` for every tree that stands at the node.
#![tactic(auto)]

pub mod annotations;
pub mod datatypes;
pub mod exceptions;
pub mod labels;
pub mod right_sides;
pub mod type_declarations;
pub mod type_variables;
pub mod types;

pub use datatypes::datatype_dec;
pub use exceptions::exception_dec;
pub use right_sides::{is_typed_fn, refuse_other_than_fn};
pub use type_declarations::type_dec;
pub use type_variables::{in_scope, opens, tyvars, unguarded};
pub use types::type_of;
