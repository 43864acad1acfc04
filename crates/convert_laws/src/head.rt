//! Function parts.

use sml_tree::bare::Con;
use smlc_base::Primitive;

/// What stands as the function part of an application. What isn't computed is no value of `Cps`, and the application is a form of its own.
#[derive(Clone, Copy)]
pub enum Head {
    Computed,
    Builtin(Primitive),
    Constructor(Con),
}
