//! What the symbols of patterns do.

ghost use Rattle.std.specs.Prelude.{◌≡◌};
ghost use Rattle.sml_syntax.specs.Moves.{at_pat, at_pat_op, at_pat_name, at_pat_name_ty, at_pat_long, at_pat_ty_rest, at_pat_operand, at_pat_arg, at_atpat, at_pat_paren, at_pat_paren_rest, at_pats, at_pats_rest, at_pat_list, at_pat_record, at_pat_rows, at_pat_rows_rest, at_pat_row, at_pun_row, at_pun_row_ty};

use crate::forms::{Look, Made, Root, Terminal};
use crate::symbol::{Move, Push, Symbol};
use crate::tests_of::{is_atpat, is_ident, is_label};
use sml_tree::TreeNode;

/// What `Pat` does.
pub fn pat_move(n: usize, look: Look) -> Move
    ensures { result ≡ at_pat n look }
{
    match look {
        Look::Other(Terminal::Long(x, _)) => Move::Eat(Push::P2(
            Symbol::Emit(Made::Lead(TreeNode::LongVid(x), n)),
            Symbol::PatLong,
        )),
        Look::Other(Terminal::Op) => Move::Eat(Push::P1(Symbol::PatOp(n))),
        Look::Plain(x, _) => Move::Eat(Push::P2(
            Symbol::Emit(Made::Lead(TreeNode::Vid(x), n)),
            Symbol::PatName,
        )),
        _ => Move::Skip(Push::P3(Symbol::Atpat, Symbol::PatOps(Root::Bare), Symbol::PatTyRest)),
    }
}

/// What `PatOp` does.
pub fn pat_op_move(q: usize, n: usize, look: Look) -> Move
    ensures { result ≡ at_pat_op q n look }
{
    match look {
        Look::Other(Terminal::Long(x, _)) => Move::Eat(Push::P3(
            Symbol::Emit(Made::Lead(TreeNode::LongVid(x), n)),
            Symbol::Emit(Made::Lead(TreeNode::Op, q)),
            Symbol::PatLong,
        )),
        Look::Plain(x, _) => Move::Eat(Push::P3(
            Symbol::Emit(Made::Lead(TreeNode::Vid(x), n)),
            Symbol::Emit(Made::Lead(TreeNode::Op, q)),
            Symbol::PatName,
        )),
        Look::Operator(x, _, _, _) => Move::Eat(Push::P3(
            Symbol::Emit(Made::Lead(TreeNode::Vid(x), n)),
            Symbol::Emit(Made::Lead(TreeNode::Op, q)),
            Symbol::PatName,
        )),
        Look::Other(Terminal::Equals) => Move::Eat(Push::P3(
            Symbol::Emit(Made::Lead(TreeNode::VidEquals, n)),
            Symbol::Emit(Made::Lead(TreeNode::Op, q)),
            Symbol::PatName,
        )),
        _ => Move::Refuse,
    }
}

/// What `PatName` does.
pub fn pat_name_move(look: Look) -> Move
    ensures { result ≡ at_pat_name look }
{
    match look {
        Look::Other(Terminal::As) => Move::Eat(Push::P2(
            Symbol::Pat,
            Symbol::Emit(Made::Inner(TreeNode::Layered)),
        )),
        Look::Other(Terminal::Colon) => Move::Eat(Push::P2(Symbol::Ty, Symbol::PatNameTy)),
        _ => Move::Skip(Push::P1(Symbol::PatLong)),
    }
}

/// What `PatNameTy` does.
pub fn pat_name_ty_move(look: Look) -> Move
    ensures { result ≡ at_pat_name_ty look }
{
    match look {
        Look::Other(Terminal::As) => Move::Eat(Push::P2(
            Symbol::Pat,
            Symbol::Emit(Made::Inner(TreeNode::TypedLayered)),
        )),
        _ => Move::Skip(Push::P2(
            Symbol::Emit(Made::Inner(TreeNode::TypedPat)),
            Symbol::PatTyRest,
        )),
    }
}

/// What `PatLong` does.
pub fn pat_long_move(look: Look) -> Move
    ensures { result ≡ at_pat_long look }
{
    if is_atpat(look) {
        Move::Skip(Push::P4(
            Symbol::Atpat,
            Symbol::Emit(Made::Inner(TreeNode::ConPat)),
            Symbol::PatOps(Root::Bare),
            Symbol::PatTyRest,
        ))
    } else {
        Move::Skip(Push::P2(Symbol::PatOps(Root::Bare), Symbol::PatTyRest))
    }
}

/// What `PatTyRest` does.
pub fn pat_ty_rest_move(look: Look) -> Move
    ensures { result ≡ at_pat_ty_rest look }
{
    match look {
        Look::Other(Terminal::Colon) => Move::Eat(Push::P3(
            Symbol::Ty,
            Symbol::Emit(Made::Inner(TreeNode::TypedPat)),
            Symbol::PatTyRest,
        )),
        _ => Move::Skip(Push::P0),
    }
}

/// What `PatOperand` does.
pub fn pat_operand_move(look: Look) -> Move
    ensures { result ≡ at_pat_operand look }
{
    if is_ident(look) {
        Move::Skip(Push::P2(Symbol::LongVid, Symbol::PatArg))
    } else {
        Move::Skip(Push::P1(Symbol::Atpat))
    }
}

/// What `PatArg` does.
pub fn pat_arg_move(look: Look) -> Move
    ensures { result ≡ at_pat_arg look }
{
    if is_atpat(look) {
        Move::Skip(Push::P2(Symbol::Atpat, Symbol::Emit(Made::Inner(TreeNode::ConPat))))
    } else {
        Move::Skip(Push::P0)
    }
}

/// What `Atpat` does.
pub fn atpat_move(n: usize, look: Look) -> Move
    ensures { result ≡ at_atpat n look }
{
    match look {
        Look::Other(Terminal::Underscore) => Move::Eat(Push::P1(Symbol::Emit(Made::Lead(
            TreeNode::Wild,
            n,
        )))),
        Look::Other(Terminal::Int(z, _)) => Move::Eat(Push::P1(Symbol::Emit(Made::Lead(
            TreeNode::Int(z),
            n,
        )))),
        Look::Other(Terminal::Char(y)) => Move::Eat(Push::P1(Symbol::Emit(Made::Lead(
            TreeNode::Char(y),
            n,
        )))),
        Look::Other(Terminal::Text(y)) => Move::Eat(Push::P1(Symbol::Emit(Made::Lead(
            TreeNode::Text(y),
            n,
        )))),
        Look::Other(Terminal::Open) => Move::Eat(Push::P1(Symbol::PatParen(n))),
        Look::Other(Terminal::OpenBracket) => Move::Eat(Push::P1(Symbol::PatList(n))),
        Look::Other(Terminal::OpenBrace) => Move::Eat(Push::P1(Symbol::PatRecord(n))),
        _ => {
            if is_ident(look) {
                Move::Skip(Push::P1(Symbol::LongVid))
            } else {
                Move::Refuse
            }
        }
    }
}

/// What `PatParen` does.
pub fn pat_paren_move(p: usize, look: Look) -> Move
    ensures { result ≡ at_pat_paren p look }
{
    match look {
        Look::Other(Terminal::Close) => Move::Eat(Push::P1(Symbol::Emit(Made::Lead(
            TreeNode::PatUnit,
            p,
        )))),
        _ => Move::Skip(Push::P2(Symbol::Pat, Symbol::PatParenRest(p))),
    }
}

/// What `PatParenRest` does.
pub fn pat_paren_rest_move(p: usize, look: Look) -> Move
    ensures { result ≡ at_pat_paren_rest p look }
{
    match look {
        Look::Other(Terminal::Close) => Move::Eat(Push::P1(Symbol::Emit(Made::Lead(
            TreeNode::PatParen,
            p,
        )))),
        Look::Other(Terminal::Comma) => Move::Eat(Push::P3(
            Symbol::Pats,
            Symbol::WantClose,
            Symbol::Emit(Made::Lead(TreeNode::PatTuple, p)),
        )),
        _ => Move::Refuse,
    }
}

/// What `Pats` does.
pub fn pats_move(look: Look) -> Move
    ensures { result ≡ at_pats look }
{
    let _ = look;
    Move::Skip(Push::P2(Symbol::Pat, Symbol::PatsRest))
}

/// What `PatsRest` does.
pub fn pats_rest_move(look: Look) -> Move
    ensures { result ≡ at_pats_rest look }
{
    match look {
        Look::Other(Terminal::Comma) => Move::Eat(Push::P2(
            Symbol::Pats,
            Symbol::Emit(Made::Inner(TreeNode::MorePats)),
        )),
        _ => Move::Skip(Push::P0),
    }
}

/// What `PatList` does.
pub fn pat_list_move(p: usize, look: Look) -> Move
    ensures { result ≡ at_pat_list p look }
{
    match look {
        Look::Other(Terminal::CloseBracket) => Move::Eat(Push::P1(Symbol::Emit(Made::Lead(
            TreeNode::PatEmptyList,
            p,
        )))),
        _ => Move::Skip(Push::P3(
            Symbol::Pats,
            Symbol::WantCloseBracket,
            Symbol::Emit(Made::Lead(TreeNode::PatList, p)),
        )),
    }
}

/// What `PatRecord` does.
pub fn pat_record_move(p: usize, look: Look) -> Move
    ensures { result ≡ at_pat_record p look }
{
    match look {
        Look::Other(Terminal::CloseBrace) => Move::Eat(Push::P1(Symbol::Emit(Made::Lead(
            TreeNode::PatEmptyRecord,
            p,
        )))),
        _ => Move::Skip(Push::P3(
            Symbol::PatRows,
            Symbol::WantCloseBrace,
            Symbol::Emit(Made::Lead(TreeNode::PatRecord, p)),
        )),
    }
}

/// What `PatRows` does.
pub fn pat_rows_move(look: Look) -> Move
    ensures { result ≡ at_pat_rows look }
{
    let _ = look;
    Move::Skip(Push::P2(Symbol::PatRow, Symbol::PatRowsRest))
}

/// What `PatRowsRest` does.
pub fn pat_rows_rest_move(look: Look) -> Move
    ensures { result ≡ at_pat_rows_rest look }
{
    match look {
        Look::Other(Terminal::Comma) => Move::Eat(Push::P2(
            Symbol::PatRows,
            Symbol::Emit(Made::Inner(TreeNode::MorePatRows)),
        )),
        _ => Move::Skip(Push::P0),
    }
}

/// What `PatRow` does.
pub fn pat_row_move(n: usize, look: Look) -> Move
    ensures { result ≡ at_pat_row n look }
{
    match look {
        Look::Plain(x, _) => Move::Eat(Push::P2(
            Symbol::Emit(Made::Lead(TreeNode::Label(x), n)),
            Symbol::PunRow,
        )),
        Look::Operator(x, _, _, _) => Move::Eat(Push::P4(
            Symbol::Emit(Made::Lead(TreeNode::Label(x), n)),
            Symbol::WantEquals,
            Symbol::Pat,
            Symbol::Emit(Made::Inner(TreeNode::PatRow)),
        )),
        Look::Other(Terminal::Int(z, h)) => {
            if is_label(h) {
                Move::Eat(Push::P4(
                    Symbol::Emit(Made::Lead(TreeNode::LabelNumber(z), n)),
                    Symbol::WantEquals,
                    Symbol::Pat,
                    Symbol::Emit(Made::Inner(TreeNode::PatRow)),
                ))
            } else {
                Move::Refuse
            }
        }
        _ => Move::Refuse,
    }
}

/// What `PunRow` does.
pub fn pun_row_move(look: Look) -> Move
    ensures { result ≡ at_pun_row look }
{
    match look {
        Look::Other(Terminal::Equals) => Move::Eat(Push::P2(
            Symbol::Pat,
            Symbol::Emit(Made::Inner(TreeNode::PatRow)),
        )),
        Look::Other(Terminal::Colon) => Move::Eat(Push::P2(Symbol::Ty, Symbol::PunRowTy)),
        Look::Other(Terminal::As) => Move::Eat(Push::P2(
            Symbol::Pat,
            Symbol::Emit(Made::Inner(TreeNode::PunRowAs)),
        )),
        _ => Move::Skip(Push::P1(Symbol::Emit(Made::Inner(TreeNode::PunRow)))),
    }
}

/// What `PunRowTy` does.
pub fn pun_row_ty_move(look: Look) -> Move
    ensures { result ≡ at_pun_row_ty look }
{
    match look {
        Look::Other(Terminal::As) => Move::Eat(Push::P2(
            Symbol::Pat,
            Symbol::Emit(Made::Inner(TreeNode::TypedPunRowAs)),
        )),
        _ => Move::Skip(Push::P1(Symbol::Emit(Made::Inner(TreeNode::TypedPunRow)))),
    }
}
