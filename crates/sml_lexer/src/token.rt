//! Tokens.

use crate::reserved::Reserved;
use smlc_base::{Name, Place};

/// What a token is.
#[derive(Clone, Copy)]
pub enum TokenKind {
    /// A reserved word.
    Word(Reserved),
    /// An alphanumeric identifier.
    Id(Name),
    /// A symbolic identifier.
    Symbol(Name),
    /// A long identifier, with its dots.
    Long(Name),
    /// A type variable, with its primes.
    TyVar(Name),
    /// An integer constant of 63 bits.
    Int(i64),
    /// A word constant, whose value isn't kept yet.
    WordLit(u64),
    /// A real constant.
    Real,
    /// A character constant.
    Char(u8),
    /// The number of a string constant.
    Text(u32),
}

/// A token, with the place of its first byte, and its spelling's first byte and length in its file.
#[derive(Clone, Copy)]
pub struct Token {
    pub kind: TokenKind,
    pub place: Place,
    pub at: u32,
    pub len: u32,
    /// Whether it is an integer constant of decimal digits alone whose first isn't 0, as the numeric labels are.
    pub numeral: bool,
}
