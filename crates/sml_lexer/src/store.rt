//! Tokens with their names and texts put away.

ghost use Rattle.std.specs.Prelude.{◌≡◌, ◌≤◌, ◌<◌, ◌+◌, ◌^◌, length, vec_len, Some, IfOk, OnOk};
ghost use Rattle.sml_lexer.specs.Shown.{meaning_in, Extends};
ghost use Rattle.sml_lexer.specs.Steps.{kind_meaning};
ghost use Rattle.sml_lexer.specs.Stored.{names_with, texts_with, IsNext};

use crate::step::Kind;
use crate::token::TokenKind;
use smlc_base::{Bytes, Names, NoMemory, Row};

/// The kind of a token with this spelling; its name or text is put away.
pub fn stored(
    kind: Kind,
    text: &[u8],
    names: &mut Names,
    texts: &mut Vec<Bytes>,
) -> Result<TokenKind, NoMemory>
    requires names { length names.old < 2 ^ 32 }
    requires texts { vec_len texts.old < 2 ^ 32 }
    ensures means { IfOk result (λ k. meaning_in names.new texts.new.items k ≡ Some (kind_meaning kind text.now)) }
    ensures name_list { OnOk result (names.new ≡ names_with names.old (kind_meaning kind text.now)) }
    ensures text_list { OnOk result (texts.new.items ≡ texts_with texts.old.items (kind_meaning kind text.now)) }
    ensures next { IfOk result (λ k. IsNext (length texts.old.items) k (length texts.new.items)) }
    ensures names { Extends names.old names.new }
    ensures texts { Extends texts.old.items texts.new.items }
    ensures name_count { length names.new ≤ length names.old + 1 }
    ensures text_count { vec_len texts.new ≤ vec_len texts.old + 1 }
{
    match kind {
        Kind::Word(word) => Ok(TokenKind::Word(word)),
        Kind::Id => Ok(TokenKind::Id(names.add(text)?)),
        Kind::Symbol => Ok(TokenKind::Symbol(names.add(text)?)),
        Kind::Long => Ok(TokenKind::Long(names.add(text)?)),
        Kind::TyVar => Ok(TokenKind::TyVar(names.add(text)?)),
        Kind::Int(value) => Ok(TokenKind::Int(value)),
        Kind::WordLit => Ok(TokenKind::WordLit(0)),
        Kind::Real => Ok(TokenKind::Real),
        Kind::Char(code) => Ok(TokenKind::Char(code)),
        Kind::Text(value) => {
            let at = texts.len();
            texts.push(Row::from_vec(value))?;
            Ok(TokenKind::Text(at as u32))
        }
    }
}
