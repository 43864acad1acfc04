//! The atoms of the names in scope, while a program is converted to `Cps`.
//!
//! It stands on `cps_ir` for atoms, and so on `lambda_ir`, `prim_meaning`, `sml_def`, `sml_tree`, `simulation` and `smlc_base`. Its main contract: `Scopes::get` answers the atom that the present scope has for a name, whatever scopes were gone to before.
#![tactic(auto)]

pub mod scopes;

pub use scopes::Scopes;
