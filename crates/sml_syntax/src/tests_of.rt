//! What a terminal may begin.

ghost use Rattle.std.specs.Prelude.{◌≡◌, true, false};
ghost use Rattle.sml_syntax.specs.Fixity.{fits as fits_root, is_label as is_label_shape, lefts};
ghost use Rattle.sml_syntax.specs.Moves.{is_ident as begins_ident, is_atpat as begins_atpat, is_atexp as begins_atexp, is_dec as begins_dec, is_prefix as begins_prefix, ends_at};

use crate::forms::{Look, Root, Shape, Terminal};

/// An identifier that stands for itself, or `op`.
pub fn is_ident(look: Look) -> bool
    ensures { result ≡ begins_ident look }
{
    matches!(
        look,
        Look::Plain(_, _) | Look::Other(Terminal::Long(_, _)) | Look::Other(Terminal::Op)
    )
}

/// It begins an atomic pattern.
pub fn is_atpat(look: Look) -> bool
    ensures { result ≡ begins_atpat look }
{
    matches!(
        look,
        Look::Plain(_, _)
            | Look::Other(Terminal::Long(_, _))
            | Look::Other(Terminal::Op)
            | Look::Other(Terminal::Int(_, _))
            | Look::Other(Terminal::Char(_))
            | Look::Other(Terminal::Text(_))
            | Look::Other(Terminal::Open)
            | Look::Other(Terminal::OpenBracket)
            | Look::Other(Terminal::OpenBrace)
            | Look::Other(Terminal::Underscore)
    )
}

/// It begins an atomic expression.
pub fn is_atexp(look: Look) -> bool
    ensures { result ≡ begins_atexp look }
{
    matches!(
        look,
        Look::Plain(_, _)
            | Look::Other(Terminal::Long(_, _))
            | Look::Other(Terminal::Op)
            | Look::Other(Terminal::Int(_, _))
            | Look::Other(Terminal::Char(_))
            | Look::Other(Terminal::Text(_))
            | Look::Other(Terminal::Open)
            | Look::Other(Terminal::OpenBracket)
            | Look::Other(Terminal::OpenBrace)
            | Look::Other(Terminal::Let)
    )
}

/// It begins a declaration.
pub fn is_dec(look: Look) -> bool
    ensures { result ≡ begins_dec look }
{
    matches!(
        look,
        Look::Other(Terminal::Val)
            | Look::Other(Terminal::Fun)
            | Look::Other(Terminal::Type)
            | Look::Other(Terminal::Datatype)
            | Look::Other(Terminal::Exception)
            | Look::Other(Terminal::Local)
            | Look::Other(Terminal::Infix)
            | Look::Other(Terminal::Infixr)
            | Look::Other(Terminal::Nonfix)
    )
}

/// It begins an expression that goes on as far as it can.
pub fn is_prefix(look: Look) -> bool
    ensures { result ≡ begins_prefix look }
{
    matches!(
        look,
        Look::Other(Terminal::Raise)
            | Look::Other(Terminal::If)
            | Look::Other(Terminal::While)
            | Look::Other(Terminal::Case)
            | Look::Other(Terminal::Fn)
    )
}

/// An integer constant that is a label.
pub fn is_label(shape: Shape) -> bool
    ensures { result ≡ is_label_shape shape }
{
    match shape {
        Shape::Digit(d) => d != 0,
        Shape::Numeral => true,
        Shape::Other => false,
    }
}
