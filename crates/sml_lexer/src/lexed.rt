//! The tokens of a program.

ghost use Rattle.std.specs.Prelude.{◌≡◌, ◌≤◌, length, true, map};
ghost use Rattle.std.specs.List.{list_all};
ghost use Rattle.smlc_base.specs.Texts.{AreDistinct};
ghost use Rattle.sml_lexer.specs.Cited.{all_cited};

use crate::token::Token;
use smlc_base::{Bytes, Names, Place, Row};

/// The tokens of a program's files in order, with the names and the string constants that they cite.
#[derive(Drop)]
pub struct Lexed {
    pub tokens: Row<Token>,
    pub names: Names,
    pub texts: Row<Bytes>,
    /// The place behind the last byte of the last file, `0:1:1` without files.
    pub end: Place,
    ghost few: { length tokens ≤ 1048576 },
    ghost cited: { all_cited (length names) (length texts) tokens ≡ true },
    ghost distinct: { AreDistinct names },
}
