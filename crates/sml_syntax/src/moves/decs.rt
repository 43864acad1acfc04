//! What the symbols of declarations do.

ghost use Rattle.std.specs.Prelude.{◌≡◌};
ghost use Rattle.sml_syntax.specs.Moves.{at_program, at_decs, at_dec, at_local_in, at_local_end, at_digit, at_vids, at_vids_rest};

use crate::forms::{Look, Made, Shape, Terminal};
use crate::symbol::{Move, Push, Symbol};
use crate::tests_of::is_dec;
use sml_tree::{Status, TreeNode};

/// What `Program` does.
pub fn program_move(look: Look) -> Move
    ensures { result ≡ at_program look }
{
    match look {
        Look::Other(Terminal::Semicolon) => Move::Eat(Push::P1(Symbol::Program)),
        _ => {
            if is_dec(look) {
                Move::Skip(Push::P2(Symbol::Dec, Symbol::Program))
            } else {
                Move::Skip(Push::P0)
            }
        }
    }
}

/// What `Decs` does.
pub fn decs_move(n: usize, look: Look) -> Move
    ensures { result ≡ at_decs n look }
{
    match look {
        Look::Other(Terminal::Semicolon) => Move::Eat(Push::P1(Symbol::Decs)),
        _ => {
            if is_dec(look) {
                Move::Skip(Push::P3(
                    Symbol::Dec,
                    Symbol::Decs,
                    Symbol::Emit(Made::Inner(TreeNode::MoreDecs)),
                ))
            } else {
                Move::Skip(Push::P1(Symbol::Emit(Made::Lead(TreeNode::NoDecs, n))))
            }
        }
    }
}

/// What `Dec` does.
pub fn dec_move(k: usize, n: usize, look: Look) -> Move
    ensures { result ≡ at_dec k n look }
{
    match look {
        Look::Other(Terminal::Val) => Move::Eat(Push::P2(
            Symbol::ValTyVars,
            Symbol::Emit(Made::Lead(TreeNode::Val, n)),
        )),
        Look::Other(Terminal::Fun) => Move::Eat(Push::P2(
            Symbol::FunTyVars,
            Symbol::Emit(Made::Lead(TreeNode::Fun, n)),
        )),
        Look::Other(Terminal::Type) => Move::Eat(Push::P2(
            Symbol::TypBinds,
            Symbol::Emit(Made::Lead(TreeNode::Type, n)),
        )),
        Look::Other(Terminal::Datatype) => Move::Eat(Push::P2(
            Symbol::DatBinds,
            Symbol::Emit(Made::Lead(TreeNode::Datatype, n)),
        )),
        Look::Other(Terminal::Exception) => Move::Eat(Push::P2(
            Symbol::ExBinds,
            Symbol::Emit(Made::Lead(TreeNode::Exception, n)),
        )),
        Look::Other(Terminal::Local) => Move::Eat(Push::P3(
            Symbol::Decs,
            Symbol::LocalIn(k),
            Symbol::Emit(Made::Lead(TreeNode::Local, n)),
        )),
        Look::Other(Terminal::Infix) => Move::Eat(Push::P1(Symbol::Digit(false, n))),
        Look::Other(Terminal::Infixr) => Move::Eat(Push::P1(Symbol::Digit(true, n))),
        Look::Other(Terminal::Nonfix) => Move::Eat(Push::P2(
            Symbol::Vids(Status::Nonfix),
            Symbol::Emit(Made::Lead(TreeNode::Directive(Status::Nonfix), n)),
        )),
        _ => Move::Refuse,
    }
}

/// What `LocalIn` does.
pub fn local_in_move(j: usize, k: usize, look: Look) -> Move
    ensures { result ≡ at_local_in j k look }
{
    match look {
        Look::Other(Terminal::In) => Move::Eat(Push::P2(Symbol::Decs, Symbol::LocalEnd(j, k))),
        _ => Move::Refuse,
    }
}

/// What `LocalEnd` does.
pub fn local_end_move(j: usize, m: usize, look: Look) -> Move
    ensures { result ≡ at_local_end j m look }
{
    match look {
        Look::Other(Terminal::End) => Move::Eat(Push::P0),
        _ => Move::Refuse,
    }
}

/// What `Digit` does.
pub fn digit_move(r: bool, p: usize, look: Look) -> Move
    ensures { result ≡ at_digit r p look }
{
    match look {
        Look::Other(Terminal::Int(_, Shape::Digit(d))) => Move::Eat(Push::P2(
            Symbol::Vids(Status::Infix(d, r)),
            Symbol::Emit(Made::Lead(TreeNode::Directive(Status::Infix(d, r)), p)),
        )),
        _ => Move::Skip(Push::P2(
            Symbol::Vids(Status::Infix(0, r)),
            Symbol::Emit(Made::Lead(TreeNode::Directive(Status::Infix(0, r)), p)),
        )),
    }
}

/// What `Vids` does.
pub fn vids_move(u: Status, n: usize, look: Look) -> Move
    ensures { result ≡ at_vids u n look }
{
    match look {
        Look::Plain(x, _) => Move::Eat(Push::P2(
            Symbol::Emit(Made::Lead(TreeNode::Vid(x), n)),
            Symbol::VidsRest(u),
        )),
        Look::Operator(x, _, _, _) => Move::Eat(Push::P2(
            Symbol::Emit(Made::Lead(TreeNode::Vid(x), n)),
            Symbol::VidsRest(u),
        )),
        _ => Move::Refuse,
    }
}

/// What `VidsRest` does.
pub fn vids_rest_move(u: Status, look: Look) -> Move
    ensures { result ≡ at_vids_rest u look }
{
    match look {
        Look::Plain(_, _) => Move::Skip(Push::P2(
            Symbol::Vids(u),
            Symbol::Emit(Made::Inner(TreeNode::MoreVids)),
        )),
        Look::Operator(_, _, _, _) => Move::Skip(Push::P2(
            Symbol::Vids(u),
            Symbol::Emit(Made::Inner(TreeNode::MoreVids)),
        )),
        _ => Move::Skip(Push::P0),
    }
}
