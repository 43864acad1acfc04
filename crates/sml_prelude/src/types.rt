//! What type constructors stand for before every program.

ghost use Rattle.std.specs.Prelude.{◌≡◌};
ghost use Rattle.sml_prelude.specs.Types.{type_of};

use crate::entry::{Entry, first_of};

/// What a type constructor stands for.
#[derive(Clone, Copy, PartialEq, Eq, Debug)]
pub enum BaseType {
    /// The type name of a number.
    Named(u32),
    /// The empty record.
    Unit,
}

/// What a type constructor, long or not, stands for before every program, if it stands for something.
#[tactic(auto, unfolding(crate::specs::Types::type_of))]
pub fn type_of(text: &[u8]) -> Option<BaseType>
    ensures { result ≡ type_of text.now }
{
    first_of(&TYPES, text)
}

/// The types by their names.
const TYPES: [Entry<BaseType>; 11] = [
    Entry {
        text: b"int",
        meaning: BaseType::Named(0),
    },
    Entry {
        text: b"char",
        meaning: BaseType::Named(1),
    },
    Entry {
        text: b"string",
        meaning: BaseType::Named(2),
    },
    Entry {
        text: b"exn",
        meaning: BaseType::Named(3),
    },
    Entry {
        text: b"bool",
        meaning: BaseType::Named(4),
    },
    Entry {
        text: b"list",
        meaning: BaseType::Named(5),
    },
    Entry {
        text: b"option",
        meaning: BaseType::Named(6),
    },
    Entry {
        text: b"order",
        meaning: BaseType::Named(7),
    },
    Entry {
        text: b"ref",
        meaning: BaseType::Named(8),
    },
    Entry {
        text: b"TextIO.instream",
        meaning: BaseType::Named(9),
    },
    Entry {
        text: b"unit",
        meaning: BaseType::Unit,
    },
];
