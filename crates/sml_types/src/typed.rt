//! The typed program.

ghost use Rattle.std.specs.Prelude.{◌≡◌, ◌≤◌, ◌↔◌, ℕ, None, Some, IfSome, length, slice_get};
ghost use Rattle.sml_types.specs.Schemes.{AreOrdered, IsSchemeOf};

use crate::scheme::{NameScheme, Scheme};
use crate::tables::Tables;
use crate::types::Types;
use sml_tree::Bare;
use smlc_base::{Name, Row};

/// A bare tree with the schemes of its names. A name is a variable, or an exception constructor that the user declares or renames; the scheme of such a constructor has no variables, and its body is `exn` or a function type to it.
#[derive(Drop)]
pub struct Typed {
    pub bare: Bare,
    pub types: Types,
    pub tables: Tables,
    /// The schemes in the order of names.
    pub schemes: Row<NameScheme>,
    ghost ordered: { AreOrdered schemes },
    ghost complete: { length schemes ≡ length bare.names },
}

impl Typed {
    /// The scheme of a name: None exactly where the program has no such name.
    pub fn scheme(&self, name: Name) -> Option<&Scheme>
        ensures none { (result ≡ None) ↔ (length self.now.bare.names ≤ name.0) }
        ensures some { IfSome result (λ s. IsSchemeOf self.now.schemes name s.now) }
    {
        let at = name.0 as usize;
        if at < self.schemes.len() {
            Some(&self.schemes.items()[at].scheme)
        } else {
            None
        }
    }
}
