//! What is known of the type declarations so far.

use sml_types::{Scheme, Tables, Ty};
use smlc_base::Row;

/// The tables of type names, the parameters and right sides of the `type` bindings, and the types that stand for the explicit type variables, each by number.
#[derive(Drop)]
pub struct Known {
    pub tables: Tables,
    pub abbreviations: Row<Scheme>,
    pub stands: Row<Ty>,
}
