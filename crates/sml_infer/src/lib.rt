//! Type inference with principal schemes.
//!
//! It stands on `infer_checks`, `infer_closing`, `infer_nodes`, `infer_scopes`, `infer_tables`, `infer_laws`, `infer_state`, `infer_parts`, `sml_unify`, `sml_types`, `sml_tree` and `smlc_base`. Its main contract: `infer` answers a principal typing, or the first declaration for which there is none.
#![tactic(auto)]

mod ask;
mod below;
mod cited;
pub mod inference;
mod note;
mod passes;
mod prefix;
mod ready;
mod schemes;
mod search;
mod start;
mod turn;
pub mod typing;

pub use inference::Inference;
pub use typing::infer;
