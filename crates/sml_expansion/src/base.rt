//! What stands in scope before every program.

ghost use Rattle.std.specs.Prelude.{◌≡◌};
ghost use Rattle.sml_expansion.specs.Scopes.{base_value, base_type, is_fixed};

use crate::meaning::{Meaning, TypeMeaning};
use sml_prelude::{BaseType, Value, short_of, type_of, value_of};

/// What a value identifier stands for.
pub fn base_value(text: &[u8]) -> Option<Meaning>
    ensures { result ≡ base_value text.now }
{
    let value = match short_of(text) {
        Some(short) => value_of(short),
        None => value_of(text),
    };
    match value {
        Some(Value::Constructor(con)) => Some(Meaning::Constructor(con)),
        Some(Value::Builtin(primitive)) => Some(Meaning::Builtin(primitive)),
        None => None,
    }
}

/// What a type constructor stands for.
pub fn base_type(text: &[u8]) -> Option<TypeMeaning>
    ensures { result ≡ base_type text.now }
{
    match type_of(text) {
        Some(BaseType::Named(number)) => Some(TypeMeaning::TypeName(number)),
        Some(BaseType::Unit) => Some(TypeMeaning::EmptyRecord),
        None => None,
    }
}

/// Whether it is one of the identifiers that aren't bound again.
pub fn is_fixed(text: &[u8]) -> bool
    ensures { result ≡ is_fixed text.now }
{
    text == b"true".as_slice()
        || text == b"false".as_slice()
        || text == b"nil".as_slice()
        || text == b"::".as_slice()
        || text == b"ref".as_slice()
        || text == b"=".as_slice()
}
