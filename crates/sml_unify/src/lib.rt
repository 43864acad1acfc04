//! Unification of types with equality marks.
//!
//! It stands on `sml_types`, `smlc_base` and `indexmap`. Its main contract: after Ok the substitution of `unify` is a most general one that extends the old and makes both types equal, and after any error but want of memory there is none.
#![tactic(auto)]

mod bind;
mod copies;
pub mod error;
mod head;
mod link;
mod mark;
mod occurs;
pub mod order;
pub mod pair;
mod parts;
pub mod resolve;
pub mod simplify;
mod solve;
pub mod subst;
mod task;
pub mod type_names;
pub mod variables;
mod visit;

pub use error::UnifyError;
pub use resolve::{Rename, Resolved};
pub use subst::{Subst, unify, unify_next};
