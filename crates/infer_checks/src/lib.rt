//! What is checked at the end of type inference.
//!
//! It stands on `infer_closing`, `infer_scopes`, `infer_laws`, `infer_state`, `infer_parts`, `sml_unify`, `sml_types`, `sml_tree` and `smlc_base`. Its main contract: after Ok of `check` what is bound, with explicit type variables in the place of those that stand for them, meets all that a typing asks beside the rules of its nodes; and after `Untypable` no typing goes with what was inferred.
#![tactic(auto)]

pub mod bound;
pub mod checked;
pub mod explicit;
pub mod fresh;
pub mod known;
pub mod matched;
pub mod node;
pub mod numbers;
pub mod open;
pub mod proper;
pub mod surroundings;
pub mod values;

pub use checked::check;
