//! What the symbols of clause heads do.

ghost use Rattle.std.specs.Prelude.{◌≡◌};
ghost use Rattle.sml_syntax.specs.Moves.{at_head, at_head_name, at_head_op, at_atpats, at_atpats_rest, at_head_paren, at_head_first_op, at_head_first_name, at_head_first, at_head_second, at_head_second_name, at_head_second_end, at_head_end, at_head_closed};

use crate::forms::{Look, Made, Root, Terminal};
use crate::symbol::{Move, Push, Symbol};
use crate::tests_of::{is_atpat, is_ident};
use sml_tree::TreeNode;

/// What `Head` does.
pub fn head_move(i: bool, n: usize, look: Look) -> Move
    ensures { result ≡ at_head i n look }
{
    match look {
        Look::Other(Terminal::Open) => {
            if i {
                Move::Eat(Push::P1(Symbol::HeadParen(n)))
            } else {
                Move::Refuse
            }
        }
        _ => {
            if is_ident(look) {
                Move::Skip(Push::P2(Symbol::LongVid, Symbol::HeadName))
            } else if i {
                Move::Skip(Push::P2(Symbol::Atpat, Symbol::HeadOp))
            } else {
                Move::Refuse
            }
        }
    }
}

/// What `HeadName` does.
pub fn head_name_move(n: usize, look: Look) -> Move
    ensures { result ≡ at_head_name n look }
{
    match look {
        Look::Operator(x, _, _, _) => Move::Eat(Push::P3(
            Symbol::Emit(Made::Lead(TreeNode::Vid(x), n)),
            Symbol::Atpat,
            Symbol::Emit(Made::Inner(TreeNode::InfixHead)),
        )),
        _ => Move::Skip(Push::P2(Symbol::Atpats, Symbol::Emit(Made::Inner(TreeNode::Head)))),
    }
}

/// What `HeadOp` does.
pub fn head_op_move(n: usize, look: Look) -> Move
    ensures { result ≡ at_head_op n look }
{
    match look {
        Look::Operator(x, _, _, _) => Move::Eat(Push::P3(
            Symbol::Emit(Made::Lead(TreeNode::Vid(x), n)),
            Symbol::Atpat,
            Symbol::Emit(Made::Inner(TreeNode::InfixHead)),
        )),
        _ => Move::Refuse,
    }
}

/// What `Atpats` does.
pub fn atpats_move(look: Look) -> Move
    ensures { result ≡ at_atpats look }
{
    let _ = look;
    Move::Skip(Push::P2(Symbol::Atpat, Symbol::AtpatsRest))
}

/// What `AtpatsRest` does.
pub fn atpats_rest_move(look: Look) -> Move
    ensures { result ≡ at_atpats_rest look }
{
    if is_atpat(look) {
        Move::Skip(Push::P2(
            Symbol::Atpats,
            Symbol::Emit(Made::Inner(TreeNode::MoreAtpats)),
        ))
    } else {
        Move::Skip(Push::P0)
    }
}

/// What `HeadParen` does.
pub fn head_paren_move(p: usize, n: usize, look: Look) -> Move
    ensures { result ≡ at_head_paren p n look }
{
    match look {
        Look::Other(Terminal::Close) => Move::Eat(Push::P2(
            Symbol::Emit(Made::Lead(TreeNode::PatUnit, p)),
            Symbol::HeadOp,
        )),
        Look::Other(Terminal::Long(x, _)) => Move::Eat(Push::P2(
            Symbol::Emit(Made::Lead(TreeNode::LongVid(x), n)),
            Symbol::HeadFirstName(false, p),
        )),
        Look::Other(Terminal::Op) => Move::Eat(Push::P1(Symbol::HeadFirstOp(n, p))),
        Look::Plain(x, _) => Move::Eat(Push::P2(
            Symbol::Emit(Made::Lead(TreeNode::Vid(x), n)),
            Symbol::HeadFirstName(true, p),
        )),
        _ => Move::Skip(Push::P2(Symbol::Atpat, Symbol::HeadFirst(p))),
    }
}

/// What `HeadFirstOp` does.
pub fn head_first_op_move(q: usize, p: usize, n: usize, look: Look) -> Move
    ensures { result ≡ at_head_first_op q p n look }
{
    match look {
        Look::Other(Terminal::Long(x, _)) => Move::Eat(Push::P3(
            Symbol::Emit(Made::Lead(TreeNode::LongVid(x), n)),
            Symbol::Emit(Made::Lead(TreeNode::Op, q)),
            Symbol::HeadFirstName(false, p),
        )),
        Look::Plain(x, _) => Move::Eat(Push::P3(
            Symbol::Emit(Made::Lead(TreeNode::Vid(x), n)),
            Symbol::Emit(Made::Lead(TreeNode::Op, q)),
            Symbol::HeadFirstName(true, p),
        )),
        Look::Operator(x, _, _, _) => Move::Eat(Push::P3(
            Symbol::Emit(Made::Lead(TreeNode::Vid(x), n)),
            Symbol::Emit(Made::Lead(TreeNode::Op, q)),
            Symbol::HeadFirstName(true, p),
        )),
        Look::Other(Terminal::Equals) => Move::Eat(Push::P3(
            Symbol::Emit(Made::Lead(TreeNode::VidEquals, n)),
            Symbol::Emit(Made::Lead(TreeNode::Op, q)),
            Symbol::HeadFirstName(true, p),
        )),
        _ => Move::Refuse,
    }
}

/// What `HeadFirstName` does.
pub fn head_first_name_move(b: bool, p: usize, n: usize, look: Look) -> Move
    ensures { result ≡ at_head_first_name b p n look }
{
    match look {
        Look::Operator(x, _, l, r) => Move::Eat(Push::P2(
            Symbol::Emit(Made::Lead(TreeNode::Vid(x), n)),
            Symbol::HeadSecond(Root::Operator(l, r), p),
        )),
        _ => {
            if is_atpat(look) {
                Move::Skip(Push::P5(
                    Symbol::Atpat,
                    Symbol::Emit(Made::Inner(TreeNode::ConPat)),
                    Symbol::PatOps(Root::Bare),
                    Symbol::PatTyRest,
                    Symbol::HeadEnd(p),
                ))
            } else if b {
                Move::Skip(Push::P2(Symbol::PatName, Symbol::HeadEnd(p)))
            } else {
                Move::Skip(Push::P2(Symbol::PatTyRest, Symbol::HeadEnd(p)))
            }
        }
    }
}

/// What `HeadFirst` does.
pub fn head_first_move(p: usize, n: usize, look: Look) -> Move
    ensures { result ≡ at_head_first p n look }
{
    match look {
        Look::Operator(x, _, l, r) => Move::Eat(Push::P2(
            Symbol::Emit(Made::Lead(TreeNode::Vid(x), n)),
            Symbol::HeadSecond(Root::Operator(l, r), p),
        )),
        _ => Move::Skip(Push::P2(Symbol::PatTyRest, Symbol::HeadEnd(p))),
    }
}

/// What `HeadSecond` does.
pub fn head_second_move(c: Root, p: usize, look: Look) -> Move
    ensures { result ≡ at_head_second c p look }
{
    if is_ident(look) {
        Move::Skip(Push::P2(Symbol::LongVid, Symbol::HeadSecondName(c, p)))
    } else {
        Move::Skip(Push::P2(Symbol::Atpat, Symbol::HeadSecondEnd(c, p)))
    }
}

/// What `HeadSecondName` does.
pub fn head_second_name_move(c: Root, p: usize, look: Look) -> Move
    ensures { result ≡ at_head_second_name c p look }
{
    if is_atpat(look) {
        Move::Skip(Push::P7(
            Symbol::Atpat,
            Symbol::Emit(Made::Inner(TreeNode::ConPat)),
            Symbol::PatOps(c),
            Symbol::Emit(Made::Inner(TreeNode::InfixPat)),
            Symbol::PatOps(Root::Bare),
            Symbol::PatTyRest,
            Symbol::HeadEnd(p),
        ))
    } else {
        Move::Skip(Push::P1(Symbol::HeadSecondEnd(c, p)))
    }
}

/// What `HeadSecondEnd` does.
pub fn head_second_end_move(c: Root, p: usize, look: Look) -> Move
    ensures { result ≡ at_head_second_end c p look }
{
    match look {
        Look::Other(Terminal::Close) => Move::Eat(Push::P1(Symbol::HeadClosed(p))),
        _ => Move::Skip(Push::P5(
            Symbol::PatOps(c),
            Symbol::Emit(Made::Inner(TreeNode::InfixPat)),
            Symbol::PatOps(Root::Bare),
            Symbol::PatTyRest,
            Symbol::HeadEnd(p),
        )),
    }
}

/// What `HeadEnd` does.
pub fn head_end_move(p: usize, look: Look) -> Move
    ensures { result ≡ at_head_end p look }
{
    match look {
        Look::Other(Terminal::Close) => Move::Eat(Push::P2(
            Symbol::Emit(Made::Lead(TreeNode::PatParen, p)),
            Symbol::HeadOp,
        )),
        Look::Other(Terminal::Comma) => Move::Eat(Push::P4(
            Symbol::Pats,
            Symbol::WantClose,
            Symbol::Emit(Made::Lead(TreeNode::PatTuple, p)),
            Symbol::HeadOp,
        )),
        _ => Move::Refuse,
    }
}

/// What `HeadClosed` does.
pub fn head_closed_move(p: usize, n: usize, look: Look) -> Move
    ensures { result ≡ at_head_closed p n look }
{
    match look {
        Look::Operator(x, _, _, _) => Move::Eat(Push::P5(
            Symbol::Emit(Made::Inner(TreeNode::InfixPat)),
            Symbol::Emit(Made::Lead(TreeNode::PatParen, p)),
            Symbol::Emit(Made::Lead(TreeNode::Vid(x), n)),
            Symbol::Atpat,
            Symbol::Emit(Made::Inner(TreeNode::InfixHead)),
        )),
        _ => {
            if is_atpat(look) {
                Move::Skip(Push::P2(
                    Symbol::Atpats,
                    Symbol::Emit(Made::Lead(TreeNode::ParenHeadArgs, p)),
                ))
            } else {
                Move::Skip(Push::P1(Symbol::Emit(Made::Lead(TreeNode::ParenHead, p))))
            }
        }
    }
}
