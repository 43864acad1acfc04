//! What inference ends with.

use crate::inference::Inference;
use infer_state::Declared;
use sml_unify::resolve::Rename;

/// The nodes below a number as they are inferred: what type declarations say, what inference came to, and the explicit type variables that come in the place of others.
#[derive(Drop)]
pub struct Below {
    pub declared: Declared,
    pub work: Inference,
    pub renames: Vec<Rename>,
}
