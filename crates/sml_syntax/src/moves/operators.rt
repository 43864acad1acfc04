//! What the symbols of infix operators do.

ghost use Rattle.std.specs.Prelude.{◌≡◌, false, true};
ghost use Rattle.sml_syntax.specs.Fixity.{fits, lefts, operates};
ghost use Rattle.sml_syntax.specs.Moves.{at_ops, at_pat_ops, ends_at};

use crate::forms::{InfixVid, Look, Made, Root, Terminal};
use crate::symbol::{Move, Push, Symbol};
use sml_tree::TreeNode;

fn is_fitting(root: Root, level: u8, right: bool) -> bool
    ensures { result ≡ fits root (Root.Operator level right) }
{
    match root {
        Root::Bare => true,
        Root::Operator(l, r) => l < level || (l == level && (r && right)),
    }
}

fn is_ended(root: Root, level: u8, right: bool) -> bool
    ensures { result ≡ ends_at false root level right }
{
    match root {
        Root::Bare => false,
        Root::Operator(l, r) => level < l || (level == l && (!r && !right)),
    }
}

fn infix_vid(look: Look) -> Option<InfixVid>
    ensures { result ≡ operates look }
{
    match look {
        Look::Operator(x, _, level, right) => Some(InfixVid {
            vid: TreeNode::Vid(x),
            level,
            right,
        }),
        Look::Other(Terminal::Equals) => Some(InfixVid {
            vid: TreeNode::VidEquals,
            level: 4,
            right: false,
        }),
        _ => None,
    }
}

/// What `Ops` does.
pub fn ops_move(c: Root, n: usize, look: Look) -> Move
    ensures { result ≡ at_ops false c n look }
{
    match infix_vid(look) {
        Some(w) => {
            if is_fitting(c, w.level, w.right) {
                Move::Eat(Push::P6(
                    Symbol::Emit(Made::Lead(w.vid, n)),
                    Symbol::Atexp,
                    Symbol::Args,
                    Symbol::Ops(Root::Operator(w.level, w.right)),
                    Symbol::Emit(Made::Inner(TreeNode::InfixExp)),
                    Symbol::Ops(c),
                ))
            } else if is_ended(c, w.level, w.right) {
                Move::Skip(Push::P0)
            } else {
                Move::Mixed
            }
        }
        None => Move::Skip(Push::P0),
    }
}

/// What `PatOps` does.
pub fn pat_ops_move(c: Root, n: usize, look: Look) -> Move
    ensures { result ≡ at_pat_ops false c n look }
{
    match look {
        Look::Operator(x, _, l, r) => {
            if is_fitting(c, l, r) {
                Move::Eat(Push::P5(
                    Symbol::Emit(Made::Lead(TreeNode::Vid(x), n)),
                    Symbol::PatOperand,
                    Symbol::PatOps(Root::Operator(l, r)),
                    Symbol::Emit(Made::Inner(TreeNode::InfixPat)),
                    Symbol::PatOps(c),
                ))
            } else if is_ended(c, l, r) {
                Move::Skip(Push::P0)
            } else {
                Move::Mixed
            }
        }
        _ => Move::Skip(Push::P0),
    }
}
