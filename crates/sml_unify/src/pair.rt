//! Pairs of types.

use sml_types::Ty;

/// Two types that are to be equal.
#[derive(Clone, Copy, Drop)]
pub struct Pair {
    pub left: Ty,
    pub right: Ty,
}
