//! What the symbols that want one terminal do.

ghost use Rattle.std.specs.Prelude.{◌≡◌};
ghost use Rattle.sml_syntax.specs.Moves.{at_want_close, at_want_close_bracket, at_want_close_brace, at_want_equals, at_want_colon, at_want_then, at_want_else, at_want_do, at_want_of, at_want_in, at_want_arrow, at_eof};

use crate::forms::{Look, Terminal};
use crate::symbol::{Move, Push, Symbol};

/// What `WantClose` does.
pub fn want_close_move(look: Look) -> Move
    ensures { result ≡ at_want_close look }
{
    match look {
        Look::Other(Terminal::Close) => Move::Eat(Push::P0),
        _ => Move::Refuse,
    }
}

/// What `WantCloseBracket` does.
pub fn want_close_bracket_move(look: Look) -> Move
    ensures { result ≡ at_want_close_bracket look }
{
    match look {
        Look::Other(Terminal::CloseBracket) => Move::Eat(Push::P0),
        _ => Move::Refuse,
    }
}

/// What `WantCloseBrace` does.
pub fn want_close_brace_move(look: Look) -> Move
    ensures { result ≡ at_want_close_brace look }
{
    match look {
        Look::Other(Terminal::CloseBrace) => Move::Eat(Push::P0),
        _ => Move::Refuse,
    }
}

/// What `WantEquals` does.
pub fn want_equals_move(look: Look) -> Move
    ensures { result ≡ at_want_equals look }
{
    match look {
        Look::Other(Terminal::Equals) => Move::Eat(Push::P0),
        _ => Move::Refuse,
    }
}

/// What `WantColon` does.
pub fn want_colon_move(look: Look) -> Move
    ensures { result ≡ at_want_colon look }
{
    match look {
        Look::Other(Terminal::Colon) => Move::Eat(Push::P0),
        _ => Move::Refuse,
    }
}

/// What `WantThen` does.
pub fn want_then_move(look: Look) -> Move
    ensures { result ≡ at_want_then look }
{
    match look {
        Look::Other(Terminal::Then) => Move::Eat(Push::P0),
        _ => Move::Refuse,
    }
}

/// What `WantElse` does.
pub fn want_else_move(look: Look) -> Move
    ensures { result ≡ at_want_else look }
{
    match look {
        Look::Other(Terminal::Else) => Move::Eat(Push::P0),
        _ => Move::Refuse,
    }
}

/// What `WantDo` does.
pub fn want_do_move(look: Look) -> Move
    ensures { result ≡ at_want_do look }
{
    match look {
        Look::Other(Terminal::Do) => Move::Eat(Push::P0),
        _ => Move::Refuse,
    }
}

/// What `WantOf` does.
pub fn want_of_move(look: Look) -> Move
    ensures { result ≡ at_want_of look }
{
    match look {
        Look::Other(Terminal::Of) => Move::Eat(Push::P0),
        _ => Move::Refuse,
    }
}

/// What `WantIn` does.
pub fn want_in_move(look: Look) -> Move
    ensures { result ≡ at_want_in look }
{
    match look {
        Look::Other(Terminal::In) => Move::Eat(Push::P0),
        _ => Move::Refuse,
    }
}

/// What `WantArrow` does.
pub fn want_arrow_move(look: Look) -> Move
    ensures { result ≡ at_want_arrow look }
{
    match look {
        Look::Other(Terminal::Arrow) => Move::Eat(Push::P0),
        _ => Move::Refuse,
    }
}

/// What `Eof` does.
pub fn eof_move(look: Look) -> Move
    ensures { result ≡ at_eof look }
{
    match look {
        Look::Other(Terminal::Finish) => Move::Eat(Push::P0),
        _ => Move::Refuse,
    }
}
