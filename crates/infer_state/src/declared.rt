//! What the type declarations of a program say.

use sml_types::{Scheme, Tables};
use smlc_base::Row;

/// The numbers of the forms from which inference starts: the first explicit type variable, the variable that stands for the type of node 0, and that of name 0. The others follow in order.
#[derive(Clone, Copy, Drop)]
pub struct Starts {
    pub explicit: u32,
    pub nodes: u32,
    pub names: u32,
}

/// The tables of type names, and the parameters and right sides of the `type` bindings by number.
#[derive(Drop)]
pub struct Declared {
    pub tables: Tables,
    pub abbreviations: Row<Scheme>,
    pub starts: Starts,
}
