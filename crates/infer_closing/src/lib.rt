//! What a declaration generalises.
//!
//! It stands on `infer_scopes`, `infer_state`, `infer_parts`, `sml_unify`, `sml_types`, `sml_tree` and `smlc_base`. Its main contract: `close` settles the names of a declaration at schemes that suit each typing of which the types are known so far, and that generalise nothing that stands open around.
#![tactic(auto)]

pub mod closing;
mod found;
pub mod group;
mod left;
pub mod matched;
mod settle;
mod vars;

pub use closing::close;
pub use matched::settle_matched;
