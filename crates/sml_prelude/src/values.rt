//! What value identifiers stand for before every program.

ghost use Rattle.std.specs.Prelude.{◌≡◌};
ghost use Rattle.sml_prelude.specs.Values.{value_of, is_function, takes_argument};

use crate::entry::{Entry, first_of};
use sml_tree::bare::Con;
use smlc_base::{LibraryExn, Primitive};

/// What a value identifier stands for.
#[derive(Clone, Copy, PartialEq, Eq, Debug)]
pub enum Value {
    Constructor(Con),
    Builtin(Primitive),
}

/// What an identifier, long or not, stands for before every program, if it stands for something.
#[tactic(auto, unfolding(crate::specs::Values::value_of))]
pub fn value_of(text: &[u8]) -> Option<Value>
    ensures { result ≡ value_of text.now }
{
    first_of(&VALUES, text)
}

/// Whether a primitive is of function type.
pub fn is_function(primitive: Primitive) -> bool
    ensures { result ≡ is_function primitive }
{
    match primitive {
        Primitive::StdIn => false,
        _ => true,
    }
}

/// Whether a constructor takes an argument.
pub fn takes_argument(con: Con) -> bool
    ensures { result ≡ takes_argument con }
{
    match con {
        Con::Data { takes, .. } => takes,
        Con::Ref => true,
        Con::Exn { takes, .. } => takes,
        Con::Library(exn) => match exn {
            LibraryExn::FailExn => true,
            _ => false,
        },
    }
}

/// The constructors, exceptions and primitives by their names.
const VALUES: [Entry<Value>; 48] = [
    Entry {
        text: b"false",
        meaning: Value::Constructor(Con::Data {
            type_name: 4,
            number: 0,
            takes: false,
        }),
    },
    Entry {
        text: b"true",
        meaning: Value::Constructor(Con::Data {
            type_name: 4,
            number: 1,
            takes: false,
        }),
    },
    Entry {
        text: b"nil",
        meaning: Value::Constructor(Con::Data {
            type_name: 5,
            number: 0,
            takes: false,
        }),
    },
    Entry {
        text: b"::",
        meaning: Value::Constructor(Con::Data {
            type_name: 5,
            number: 1,
            takes: true,
        }),
    },
    Entry {
        text: b"NONE",
        meaning: Value::Constructor(Con::Data {
            type_name: 6,
            number: 0,
            takes: false,
        }),
    },
    Entry {
        text: b"SOME",
        meaning: Value::Constructor(Con::Data {
            type_name: 6,
            number: 1,
            takes: true,
        }),
    },
    Entry {
        text: b"LESS",
        meaning: Value::Constructor(Con::Data {
            type_name: 7,
            number: 0,
            takes: false,
        }),
    },
    Entry {
        text: b"EQUAL",
        meaning: Value::Constructor(Con::Data {
            type_name: 7,
            number: 1,
            takes: false,
        }),
    },
    Entry {
        text: b"GREATER",
        meaning: Value::Constructor(Con::Data {
            type_name: 7,
            number: 2,
            takes: false,
        }),
    },
    Entry {
        text: b"ref",
        meaning: Value::Constructor(Con::Ref),
    },
    Entry {
        text: b"Match",
        meaning: Value::Constructor(Con::Library(LibraryExn::MatchExn)),
    },
    Entry {
        text: b"Bind",
        meaning: Value::Constructor(Con::Library(LibraryExn::BindExn)),
    },
    Entry {
        text: b"Div",
        meaning: Value::Constructor(Con::Library(LibraryExn::DivExn)),
    },
    Entry {
        text: b"Overflow",
        meaning: Value::Constructor(Con::Library(LibraryExn::OverflowExn)),
    },
    Entry {
        text: b"Chr",
        meaning: Value::Constructor(Con::Library(LibraryExn::ChrExn)),
    },
    Entry {
        text: b"Subscript",
        meaning: Value::Constructor(Con::Library(LibraryExn::SubscriptExn)),
    },
    Entry {
        text: b"Size",
        meaning: Value::Constructor(Con::Library(LibraryExn::SizeExn)),
    },
    Entry {
        text: b"Empty",
        meaning: Value::Constructor(Con::Library(LibraryExn::EmptyExn)),
    },
    Entry {
        text: b"Option",
        meaning: Value::Constructor(Con::Library(LibraryExn::OptionExn)),
    },
    Entry {
        text: b"Domain",
        meaning: Value::Constructor(Con::Library(LibraryExn::DomainExn)),
    },
    Entry {
        text: b"Fail",
        meaning: Value::Constructor(Con::Library(LibraryExn::FailExn)),
    },
    Entry {
        text: b"+",
        meaning: Value::Builtin(Primitive::Plus),
    },
    Entry {
        text: b"-",
        meaning: Value::Builtin(Primitive::Minus),
    },
    Entry {
        text: b"*",
        meaning: Value::Builtin(Primitive::Times),
    },
    Entry {
        text: b"div",
        meaning: Value::Builtin(Primitive::Quotient),
    },
    Entry {
        text: b"mod",
        meaning: Value::Builtin(Primitive::Modulo),
    },
    Entry {
        text: b"~",
        meaning: Value::Builtin(Primitive::Negate),
    },
    Entry {
        text: b"abs",
        meaning: Value::Builtin(Primitive::Abs),
    },
    Entry {
        text: b"<",
        meaning: Value::Builtin(Primitive::Less),
    },
    Entry {
        text: b">",
        meaning: Value::Builtin(Primitive::Greater),
    },
    Entry {
        text: b"<=",
        meaning: Value::Builtin(Primitive::AtMost),
    },
    Entry {
        text: b">=",
        meaning: Value::Builtin(Primitive::AtLeast),
    },
    Entry {
        text: b"=",
        meaning: Value::Builtin(Primitive::Equal),
    },
    Entry {
        text: b"<>",
        meaning: Value::Builtin(Primitive::Unequal),
    },
    Entry {
        text: b"!",
        meaning: Value::Builtin(Primitive::Deref),
    },
    Entry {
        text: b":=",
        meaning: Value::Builtin(Primitive::Assign),
    },
    Entry {
        text: b"ord",
        meaning: Value::Builtin(Primitive::Ord),
    },
    Entry {
        text: b"chr",
        meaning: Value::Builtin(Primitive::Chr),
    },
    Entry {
        text: b"^",
        meaning: Value::Builtin(Primitive::Concat),
    },
    Entry {
        text: b"size",
        meaning: Value::Builtin(Primitive::Size),
    },
    Entry {
        text: b"str",
        meaning: Value::Builtin(Primitive::Str),
    },
    Entry {
        text: b"implode",
        meaning: Value::Builtin(Primitive::Implode),
    },
    Entry {
        text: b"String.sub",
        meaning: Value::Builtin(Primitive::Sub),
    },
    Entry {
        text: b"substring",
        meaning: Value::Builtin(Primitive::Substring),
    },
    Entry {
        text: b"String.compare",
        meaning: Value::Builtin(Primitive::Compare),
    },
    Entry {
        text: b"print",
        meaning: Value::Builtin(Primitive::Print),
    },
    Entry {
        text: b"TextIO.inputLine",
        meaning: Value::Builtin(Primitive::InputLine),
    },
    Entry {
        text: b"TextIO.stdIn",
        meaning: Value::Builtin(Primitive::StdIn),
    },
];
