//! What inference has come to.

use infer_scopes::Scopes;
use infer_state::{Settled, Unknowns};
use sml_types::TyVar;
use smlc_base::Row;

/// Inference of the nodes below `count`, of which those below `done` are done: the contexts of nodes, the schemes of names, what right sides generalise, the `let` of each node that stands behind a declaration, and the types with what is bound.
#[derive(Drop)]
pub struct Inference {
    pub count: u32,
    pub done: u32,
    pub scopes: Scopes,
    pub settled: Vec<Option<Settled>>,
    pub general: Vec<Option<Row<TyVar>>>,
    pub behind: Vec<Option<u32>>,
    pub unknowns: Unknowns,
}
