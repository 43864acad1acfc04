//! What conversion to `Cps` writes of one form: the fields that are picked for names and primitives, tests, tuples, and the names that come into scope.
//!
//! It stands on `convert_laws` for what is to be written, on `convert_scopes` for the atoms of names, on `convert_decide` for sums, on `cps_ir`, `lambda_ir`, `prim_meaning`, `sml_def`, `sml_tree`, `simulation` and `smlc_base`. Its main contract: `pick_names` writes exactly the fields that the names of a rule are picked from, and answers the atom of each name.
//!
//! `specs/Emitted.antt` says what a body with some binds has in common with one that has more: their code is the same, if what was left to be written lost just that.
#![tactic(auto)]

pub mod atoms;
pub mod fields;
pub mod names;
pub mod picks;
pub mod scope;
pub mod slots;

pub use atoms::{builtin_atom, con_atom, tests};
pub use fields::{Fields, pick_fields};
pub use names::{BoundName, Picked, pick_names};
pub use scope::{bind_all, group_names};
pub use slots::in_slots;
