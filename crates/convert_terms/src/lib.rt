//! What conversion to `Cps` writes of a term, whatever its form.
//!
//! It stands on `convert_steps` and `convert_groups` for each form, on `convert_unfold` for what conversion makes of a term, on `convert_pieces`, `convert_decide`, `convert_scopes`, `convert_laws`, `cps_ir`, `lambda_ir`, `sml_tree` and `smlc_base`. Its main contract: `term` writes exactly what the definition makes of a term, in any scope and in front of any continuation that its numbers stand for.
//!
//! No function here recurses: a term is begun, and the terms in it are left as tasks.
#![tactic(auto)]

pub mod applications;
pub mod declarations;
pub mod leaves;
pub mod terms;

pub use terms::term;
