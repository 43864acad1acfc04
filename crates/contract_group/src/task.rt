//! Bodies that are still to be walked.

use cps_ir::Variable;
use smlc_base::Row;

/// A function that is put where it is called: its parameters, and the number of its body in the argument.
#[derive(Drop)]
pub struct Placed {
    pub params: Row<Variable>,
    pub body: u32,
}

/// The body of this number in the argument is still to be walked, as what comes next in the body `slot` of the answer, which is or stands in
/// that of the function whose body is `root`.
#[derive(Clone, Copy)]
pub struct Task {
    pub body: u32,
    pub root: u32,
    pub slot: u32,
}
