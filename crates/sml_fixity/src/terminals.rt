//! The tokens as the grammar sees them.

ghost use Rattle.std.specs.Prelude.{◌≡◌, slice_get, MatchOption, None, Some};
ghost use Rattle.sml_fixity.specs.Terminals.{ends_in_star, is_star, of_word, passes, shape_of as shape_spec, terminal_of as terminal_spec};

use sml_lexer::{Reserved, Token, TokenKind};
use sml_syntax::forms::{Shape, Terminal};
use smlc_base::{Name, Names};

fn word_terminal(word: Reserved) -> Terminal
    ensures { result ≡ of_word word }
{
    match word {
        Reserved::KwAnd => Terminal::And,
        Reserved::KwAndalso => Terminal::Andalso,
        Reserved::KwAs => Terminal::As,
        Reserved::KwCase => Terminal::Case,
        Reserved::KwDatatype => Terminal::Datatype,
        Reserved::KwDo => Terminal::Do,
        Reserved::KwElse => Terminal::Else,
        Reserved::KwEnd => Terminal::End,
        Reserved::KwException => Terminal::Exception,
        Reserved::KwFn => Terminal::Fn,
        Reserved::KwFun => Terminal::Fun,
        Reserved::KwHandle => Terminal::Handle,
        Reserved::KwIf => Terminal::If,
        Reserved::KwIn => Terminal::In,
        Reserved::KwInfix => Terminal::Infix,
        Reserved::KwInfixr => Terminal::Infixr,
        Reserved::KwLet => Terminal::Let,
        Reserved::KwLocal => Terminal::Local,
        Reserved::KwNonfix => Terminal::Nonfix,
        Reserved::KwOf => Terminal::Of,
        Reserved::KwOp => Terminal::Op,
        Reserved::KwOrelse => Terminal::Orelse,
        Reserved::KwRaise => Terminal::Raise,
        Reserved::KwRec => Terminal::Rec,
        Reserved::KwThen => Terminal::Then,
        Reserved::KwType => Terminal::Type,
        Reserved::KwVal => Terminal::Val,
        Reserved::KwWhile => Terminal::While,
        Reserved::KwOpenParen => Terminal::Open,
        Reserved::KwCloseParen => Terminal::Close,
        Reserved::KwOpenBracket => Terminal::OpenBracket,
        Reserved::KwCloseBracket => Terminal::CloseBracket,
        Reserved::KwOpenBrace => Terminal::OpenBrace,
        Reserved::KwCloseBrace => Terminal::CloseBrace,
        Reserved::KwComma => Terminal::Comma,
        Reserved::KwColon => Terminal::Colon,
        Reserved::KwSemicolon => Terminal::Semicolon,
        Reserved::KwUnderscore => Terminal::Underscore,
        Reserved::KwBar => Terminal::Bar,
        Reserved::KwEquals => Terminal::Equals,
        Reserved::KwDoubleArrow => Terminal::Arrow,
        Reserved::KwArrow => Terminal::To,
        Reserved::KwAbstype
        | Reserved::KwOpen
        | Reserved::KwWith
        | Reserved::KwWithtype
        | Reserved::KwEqtype
        | Reserved::KwFunctor
        | Reserved::KwInclude
        | Reserved::KwSharing
        | Reserved::KwSig
        | Reserved::KwSignature
        | Reserved::KwStruct
        | Reserved::KwStructure
        | Reserved::KwWhere
        | Reserved::KwDots
        | Reserved::KwHash
        | Reserved::KwSeal => Terminal::Foreign,
    }
}

// The text of a name, if it has one.
fn text_of<'a>(names: &'a Names, name: Name) -> Option<&'a [u8]>
    ensures { MatchOption result (slice_get names.now name.0 ≡ None) (λ text. slice_get names.now name.0 ≡ Some text.now) }
{
    if (name.0 as usize) < names.len() {
        Some(names.text(name))
    } else {
        None
    }
}

fn names_star(names: &Names, name: Name) -> bool
    ensures { result ≡ passes is_star (slice_get names.now name.0) }
{
    match text_of(names, name) {
        Some(text) => text == b"*".as_slice(),
        None => false,
    }
}

fn names_long_star(names: &Names, name: Name) -> bool
    ensures { result ≡ passes ends_in_star (slice_get names.now name.0) }
{
    match text_of(names, name) {
        Some(text) => &text[text.len().saturating_sub(2)..] == b".*".as_slice(),
        None => false,
    }
}

fn shape_of(value: i64, len: u32, numeral: bool) -> Shape
    ensures { result ≡ shape_spec value len numeral }
{
    if len == 1 && 0 <= value && value <= 9 {
        Shape::Digit(value as u8)
    } else if numeral {
        Shape::Numeral
    } else {
        Shape::Other
    }
}

/// A token as the grammar sees it.
pub fn terminal_of(names: &Names, token: Token) -> Terminal
    ensures { result ≡ terminal_spec names.now token }
{
    match token.kind {
        TokenKind::Word(word) => word_terminal(word),
        TokenKind::Id(name) | TokenKind::Symbol(name) => Terminal::Id(
            name,
            names_star(names, name),
        ),
        TokenKind::Long(name) => Terminal::Long(name, !names_long_star(names, name)),
        TokenKind::TyVar(name) => Terminal::TyVar(name),
        TokenKind::Int(value) => Terminal::Int(value, shape_of(value, token.len, token.numeral)),
        TokenKind::WordLit(_) | TokenKind::Real => Terminal::Foreign,
        TokenKind::Char(byte) => Terminal::Char(byte),
        TokenKind::Text(number) => Terminal::Text(number),
    }
}
