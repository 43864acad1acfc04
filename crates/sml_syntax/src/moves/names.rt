//! What the symbols of identifiers do.

ghost use Rattle.std.specs.Prelude.{◌≡◌};
ghost use Rattle.sml_syntax.specs.Moves.{at_op_vid, at_any_vid, at_long_vid, at_any_long};

use crate::forms::{Look, Made, Terminal};
use crate::symbol::{Move, Push, Symbol};
use sml_tree::TreeNode;

/// What `OpVid` does.
pub fn op_vid_move(n: usize, look: Look) -> Move
    ensures { result ≡ at_op_vid n look }
{
    match look {
        Look::Other(Terminal::Op) => Move::Eat(Push::P2(
            Symbol::AnyVid,
            Symbol::Emit(Made::Lead(TreeNode::Op, n)),
        )),
        Look::Plain(x, _) => Move::Eat(Push::P1(Symbol::Emit(Made::Lead(TreeNode::Vid(x), n)))),
        _ => Move::Refuse,
    }
}

/// What `AnyVid` does.
pub fn any_vid_move(n: usize, look: Look) -> Move
    ensures { result ≡ at_any_vid n look }
{
    match look {
        Look::Plain(x, _) => Move::Eat(Push::P1(Symbol::Emit(Made::Lead(TreeNode::Vid(x), n)))),
        Look::Operator(x, _, _, _) => Move::Eat(Push::P1(Symbol::Emit(Made::Lead(
            TreeNode::Vid(x),
            n,
        )))),
        Look::Other(Terminal::Equals) => Move::Eat(Push::P1(Symbol::Emit(Made::Lead(
            TreeNode::VidEquals,
            n,
        )))),
        _ => Move::Refuse,
    }
}

/// What `LongVid` does.
pub fn long_vid_move(n: usize, look: Look) -> Move
    ensures { result ≡ at_long_vid n look }
{
    match look {
        Look::Other(Terminal::Op) => Move::Eat(Push::P2(
            Symbol::AnyLong,
            Symbol::Emit(Made::Lead(TreeNode::Op, n)),
        )),
        Look::Plain(x, _) => Move::Eat(Push::P1(Symbol::Emit(Made::Lead(TreeNode::Vid(x), n)))),
        Look::Other(Terminal::Long(x, _)) => Move::Eat(Push::P1(Symbol::Emit(Made::Lead(
            TreeNode::LongVid(x),
            n,
        )))),
        _ => Move::Refuse,
    }
}

/// What `AnyLong` does.
pub fn any_long_move(n: usize, look: Look) -> Move
    ensures { result ≡ at_any_long n look }
{
    match look {
        Look::Plain(x, _) => Move::Eat(Push::P1(Symbol::Emit(Made::Lead(TreeNode::Vid(x), n)))),
        Look::Operator(x, _, _, _) => Move::Eat(Push::P1(Symbol::Emit(Made::Lead(
            TreeNode::Vid(x),
            n,
        )))),
        Look::Other(Terminal::Equals) => Move::Eat(Push::P1(Symbol::Emit(Made::Lead(
            TreeNode::VidEquals,
            n,
        )))),
        Look::Other(Terminal::Long(x, _)) => Move::Eat(Push::P1(Symbol::Emit(Made::Lead(
            TreeNode::LongVid(x),
            n,
        )))),
        _ => Move::Refuse,
    }
}
