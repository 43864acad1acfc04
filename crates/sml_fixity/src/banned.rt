//! The tokens that stand for what is outside the language.

ghost use Rattle.std.specs.Prelude.{◌≡◌, slice_get};
ghost use Rattle.sml_fixity.specs.Banned.{banned_at as banned_spec, is_datatype as is_datatype_kind, is_equals as is_equals_kind, is_name as is_name_kind, is_replication as is_replication_spec, of_kind as of_kind_spec, of_word as of_word_spec, passes_at};

use sml_lexer::{Reserved, Token, TokenKind};
use smlc_base::Banned;

fn of_word(word: Reserved) -> Option<Banned>
    ensures { result ≡ of_word_spec word }
{
    match word {
        Reserved::KwAbstype => Some(Banned::Abstype),
        Reserved::KwEqtype => Some(Banned::Eqtype),
        Reserved::KwFunctor => Some(Banned::Functor),
        Reserved::KwInclude => Some(Banned::Include),
        Reserved::KwOpen => Some(Banned::Open),
        Reserved::KwSharing => Some(Banned::Sharing),
        Reserved::KwSig => Some(Banned::Sig),
        Reserved::KwSignature => Some(Banned::Signature),
        Reserved::KwStruct => Some(Banned::Struct),
        Reserved::KwStructure => Some(Banned::Structure),
        Reserved::KwWhere => Some(Banned::Where),
        Reserved::KwWithtype => Some(Banned::Withtype),
        Reserved::KwSeal => Some(Banned::Seal),
        Reserved::KwDots => Some(Banned::Dots),
        Reserved::KwHash => Some(Banned::Hash),
        _ => None,
    }
}

fn of_kind(kind: TokenKind) -> Option<Banned>
    ensures { result ≡ of_kind_spec kind }
{
    match kind {
        TokenKind::Word(word) => of_word(word),
        TokenKind::Real => Some(Banned::Real),
        TokenKind::WordLit(_) => Some(Banned::Word),
        _ => None,
    }
}

fn is_datatype(tokens: &[Token], at: usize) -> bool
    ensures { result ≡ passes_at is_datatype_kind (slice_get tokens.now at) }
{
    match tokens.get(at) {
        Some(token) => matches!(token.kind, TokenKind::Word(Reserved::KwDatatype)),
        None => false,
    }
}

fn is_name(tokens: &[Token], at: usize) -> bool
    ensures { result ≡ passes_at is_name_kind (slice_get tokens.now at) }
{
    match tokens.get(at) {
        Some(token) => matches!(token.kind, TokenKind::Id(_) | TokenKind::Symbol(_)),
        None => false,
    }
}

fn is_equals(tokens: &[Token], at: usize) -> bool
    ensures { result ≡ passes_at is_equals_kind (slice_get tokens.now at) }
{
    match tokens.get(at) {
        Some(token) => matches!(token.kind, TokenKind::Word(Reserved::KwEquals)),
        None => false,
    }
}

fn is_replication(tokens: &[Token], at: usize) -> bool
    ensures { result ≡ is_replication_spec tokens.now at }
{
    at >= 3
        && is_datatype(tokens, at - 3)
        && is_name(tokens, at - 2)
        && is_equals(tokens, at - 1)
        && is_datatype(tokens, at)
}

/// The form outside the language that a token stands for, if it stands for one.
pub fn banned_at(tokens: &[Token], at: usize) -> Option<Banned>
    ensures { result ≡ banned_spec tokens.now at }
{
    if is_replication(tokens, at) {
        return Some(Banned::Datatype);
    }
    match tokens.get(at) {
        Some(token) => of_kind(token.kind),
        None => None,
    }
}
