//! Long identifiers that stand for short ones.

ghost use Rattle.std.specs.Prelude.{◌≡◌, map, option_map};
ghost use Rattle.sml_prelude.specs.Long.{long_row, long_identifiers, short_of};

use crate::entry::{Entry, first_of};

/// The short identifier that a long one stands for, if it stands for one.
#[tactic(auto, unfolding(crate::specs::Long::short_of, crate::specs::Long::long_identifiers))]
pub fn short_of(text: &[u8]) -> Option<&'static [u8]>
    ensures { option_map (λ short. short.now) result ≡ short_of text.now }
{
    first_of(&LONG, text)
}

/// All long identifiers with the short ones, in the order of the table.
#[tactic(auto, unfolding(crate::specs::Long::long_identifiers))]
pub fn long_identifiers() -> &'static [Entry<&'static [u8]>]
    ensures { map long_row result.now ≡ long_identifiers }
{
    &LONG
}

/// The long identifiers with the short ones.
const LONG: [Entry<&'static [u8]>; 24] = [
    Entry {
        text: b"List.null",
        meaning: b"null",
    },
    Entry {
        text: b"List.hd",
        meaning: b"hd",
    },
    Entry {
        text: b"List.tl",
        meaning: b"tl",
    },
    Entry {
        text: b"List.rev",
        meaning: b"rev",
    },
    Entry {
        text: b"List.length",
        meaning: b"length",
    },
    Entry {
        text: b"List.map",
        meaning: b"map",
    },
    Entry {
        text: b"List.app",
        meaning: b"app",
    },
    Entry {
        text: b"List.foldl",
        meaning: b"foldl",
    },
    Entry {
        text: b"List.foldr",
        meaning: b"foldr",
    },
    Entry {
        text: b"List.@",
        meaning: b"@",
    },
    Entry {
        text: b"Option.isSome",
        meaning: b"isSome",
    },
    Entry {
        text: b"Option.valOf",
        meaning: b"valOf",
    },
    Entry {
        text: b"Option.getOpt",
        meaning: b"getOpt",
    },
    Entry {
        text: b"String.size",
        meaning: b"size",
    },
    Entry {
        text: b"String.str",
        meaning: b"str",
    },
    Entry {
        text: b"String.concat",
        meaning: b"concat",
    },
    Entry {
        text: b"String.implode",
        meaning: b"implode",
    },
    Entry {
        text: b"String.explode",
        meaning: b"explode",
    },
    Entry {
        text: b"String.substring",
        meaning: b"substring",
    },
    Entry {
        text: b"String.^",
        meaning: b"^",
    },
    Entry {
        text: b"Char.ord",
        meaning: b"ord",
    },
    Entry {
        text: b"Char.chr",
        meaning: b"chr",
    },
    Entry {
        text: b"Int.abs",
        meaning: b"abs",
    },
    Entry {
        text: b"TextIO.print",
        meaning: b"print",
    },
];
