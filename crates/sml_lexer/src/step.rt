//! What stands at a place of a file: a gap, a token or a fault.

ghost use Rattle.std.specs.Prelude.{◌≡◌, ◌≢◌, ◌≤◌, ◌<◌, ◌^◌, length, slice_index, IfOk, false};
ghost use Rattle.std.specs.Option.{ForSome};
ghost use Rattle.sml_lexer.specs.Bytes.{is_space};
ghost use Rattle.sml_lexer.specs.Steps.{NoComment, OpensNone};
ghost use Rattle.sml_lexer.specs.Steps.{IsStep, fault_of};

use crate::bytes::{byte_at, is_space, rest};
use crate::comment::comment_len;
use crate::integer::integer;
use crate::plain::{Class, plain_at};
use crate::quoted::{Ending, Quoted, read_quoted};
use crate::reserved::Reserved;
use smlc_base::NoMemory;
use std::alloc::Global;

/// Why a place has no token.
#[derive(Clone, Copy)]
pub enum Trouble {
    BadToken,
    Unclosed,
    LiteralRange,
}

/// A fault, so many bytes behind the place.
#[derive(Clone, Copy)]
pub struct Spot {
    pub back: usize,
    pub trouble: Trouble,
}

/// What a token is.
#[derive(Drop)]
pub enum Kind {
    Word(Reserved),
    Id,
    Symbol,
    Long,
    TyVar,
    Int(i64),
    WordLit,
    Real,
    Char(u8),
    Text(Vec<u8>),
}

/// What stands at a place.
#[derive(Drop)]
pub enum Step {
    Gap { len: usize },
    Token { len: usize, kind: Kind },
    Fault(Spot),
}

/// The first fault of a constant that was read behind an opening of so many bytes.
fn fault_of(
    ending: Ending,
    is_char: bool,
    count: usize,
    wide: bool,
    stray: Option<usize>,
    opening: usize,
) -> Option<Spot>
    requires opening { opening ≤ 2 }
    requires stray { ForSome stray (λ at. at < 2 ^ 63) }
    ensures { result ≡ fault_of ending is_char count wide stray opening }
{
    match ending {
        Ending::Unknown => Some(Spot {
            back: 0,
            trouble: Trouble::BadToken,
        }),
        Ending::Open => Some(Spot {
            back: 0,
            trouble: Trouble::Unclosed,
        }),
        Ending::Closed => {
            if is_char && count != 1 {
                return Some(Spot {
                    back: 0,
                    trouble: Trouble::BadToken,
                });
            }
            if wide {
                return Some(Spot {
                    back: 0,
                    trouble: Trouble::LiteralRange,
                });
            }
            match stray {
                Some(at) => Some(Spot {
                    back: opening + at,
                    trouble: Trouble::BadToken,
                }),
                None => None,
            }
        }
    }
}

/// At a quote.
fn string_step(alloc: Global, bytes: &[u8]) -> Result<Step, NoMemory>
    requires { slice_index bytes.now 0 ≡ 34 }
    ensures { IfOk result (λ step. IsStep bytes.now step) }
{
    let Quoted {
        len,
        value,
        wide,
        stray,
        ending,
    } = read_quoted(alloc, rest(bytes, 1))?;
    match fault_of(ending, false, value.len(), wide, stray, 1) {
        Some(spot) => Ok(Step::Fault(spot)),
        None => Ok(Step::Token {
            len: len + 2,
            kind: Kind::Text(value),
        }),
    }
}

/// At `#` and a quote.
fn character_step(alloc: Global, bytes: &[u8]) -> Result<Step, NoMemory>
    requires first { slice_index bytes.now 0 ≡ 35 }
    requires second { slice_index bytes.now 1 ≡ 34 }
    ensures { IfOk result (λ step. IsStep bytes.now step) }
{
    let Quoted {
        len,
        value,
        wide,
        stray,
        ending,
    } = read_quoted(alloc, rest(bytes, 2))?;
    match fault_of(ending, true, value.len(), wide, stray, 2) {
        Some(spot) => Ok(Step::Fault(spot)),
        None => Ok(Step::Token {
            len: len + 3,
            kind: Kind::Char(value[0]),
        }),
    }
}

/// At the opening of a comment.
fn comment_step(bytes: &[u8]) -> Step
    requires first { slice_index bytes.now 0 ≡ 40 }
    requires second { slice_index bytes.now 1 ≡ 42 }
    ensures { IsStep bytes.now result }
{
    match comment_len(rest(bytes, 2)) {
        Some(len) => Step::Gap { len: len + 2 },
        None => Step::Fault(Spot {
            back: 0,
            trouble: Trouble::Unclosed,
        }),
    }
}

/// Where no white space, comment or constant in quotes begins.
fn plain_step(bytes: &[u8]) -> Step
    requires some { 0 < length bytes.now }
    requires no_space { is_space (slice_index bytes.now 0) ≡ false }
    requires no_comment { NoComment bytes.now }
    requires no_constant { OpensNone bytes.now }
    ensures { IsStep bytes.now result }
{
    match plain_at(bytes) {
        None => Step::Fault(Spot {
            back: 0,
            trouble: Trouble::BadToken,
        }),
        Some(found) => match found.class {
            Class::Int => match integer(&bytes[..found.len]) {
                Some(value) => Step::Token {
                    len: found.len,
                    kind: Kind::Int(value),
                },
                None => Step::Fault(Spot {
                    back: 0,
                    trouble: Trouble::LiteralRange,
                }),
            },
            Class::Word(word) => Step::Token {
                len: found.len,
                kind: Kind::Word(word),
            },
            Class::Id => Step::Token {
                len: found.len,
                kind: Kind::Id,
            },
            Class::Symbol => Step::Token {
                len: found.len,
                kind: Kind::Symbol,
            },
            Class::Long => Step::Token {
                len: found.len,
                kind: Kind::Long,
            },
            Class::TyVar => Step::Token {
                len: found.len,
                kind: Kind::TyVar,
            },
            Class::WordLit => Step::Token {
                len: found.len,
                kind: Kind::WordLit,
            },
            Class::Real => Step::Token {
                len: found.len,
                kind: Kind::Real,
            },
        },
    }
}

/// What stands at the front.
pub fn step_at(alloc: Global, bytes: &[u8]) -> Result<Step, NoMemory>
    requires { 0 < length bytes.now }
    ensures { IfOk result (λ step. IsStep bytes.now step) }
{
    let first = byte_at(bytes, 0);
    let second = byte_at(bytes, 1);
    if is_space(first) {
        Ok(Step::Gap { len: 1 })
    } else if first == b'(' && second == b'*' {
        Ok(comment_step(bytes))
    } else if first == b'"' {
        string_step(alloc, bytes)
    } else if first == b'#' && second == b'"' {
        character_step(alloc, bytes)
    } else {
        Ok(plain_step(bytes))
    }
}
