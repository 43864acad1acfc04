//! What identifiers stand for.

use sml_tree::bare::Con;
use smlc_base::{Name, Primitive};

/// What a value identifier stands for: a variable by the number of its binding, a constructor or a primitive.
#[derive(Clone, Copy, PartialEq, Eq, Debug)]
pub enum Meaning {
    Variable(Name),
    Constructor(Con),
    Builtin(Primitive),
}

/// What a type constructor stands for: a type name or a `type` binding, by its number, or the empty record.
#[derive(Clone, Copy, PartialEq, Eq, Debug)]
pub enum TypeMeaning {
    TypeName(u32),
    Abbreviation(u32),
    EmptyRecord,
}
