//! What the symbols of expressions do.

ghost use Rattle.std.specs.Prelude.{◌≡◌};
ghost use Rattle.sml_syntax.specs.Moves.{at_exp, at_prefix, at_ty_rest, at_and_rest, at_and_right, at_or_rest, at_or_right, at_handle_rest, at_args, at_match, at_match_bar, at_atexp, at_let_end, at_seq, at_seq_rest, at_paren_exp, at_paren_rest, at_items, at_items_rest, at_list_exp, at_record_exp, at_rows, at_rows_rest, at_label};

use crate::forms::{Look, Made, Root, Terminal};
use crate::symbol::{Move, Push, Symbol};
use crate::tests_of::{is_atexp, is_ident, is_label, is_prefix};
use sml_tree::TreeNode;

/// What `Exp` does.
pub fn exp_move(look: Look) -> Move
    ensures { result ≡ at_exp look }
{
    if is_prefix(look) {
        Move::Skip(Push::P1(Symbol::Prefix))
    } else {
        Move::Skip(Push::P7(
            Symbol::Atexp,
            Symbol::Args,
            Symbol::Ops(Root::Bare),
            Symbol::TyRest,
            Symbol::AndRest,
            Symbol::OrRest,
            Symbol::HandleRest,
        ))
    }
}

/// What `Prefix` does.
pub fn prefix_move(n: usize, look: Look) -> Move
    ensures { result ≡ at_prefix n look }
{
    match look {
        Look::Other(Terminal::Raise) => Move::Eat(Push::P2(
            Symbol::Exp,
            Symbol::Emit(Made::Lead(TreeNode::Raise, n)),
        )),
        Look::Other(Terminal::If) => Move::Eat(Push::P6(
            Symbol::Exp,
            Symbol::WantThen,
            Symbol::Exp,
            Symbol::WantElse,
            Symbol::Exp,
            Symbol::Emit(Made::Lead(TreeNode::If, n)),
        )),
        Look::Other(Terminal::While) => Move::Eat(Push::P4(
            Symbol::Exp,
            Symbol::WantDo,
            Symbol::Exp,
            Symbol::Emit(Made::Lead(TreeNode::While, n)),
        )),
        Look::Other(Terminal::Case) => Move::Eat(Push::P4(
            Symbol::Exp,
            Symbol::WantOf,
            Symbol::Match,
            Symbol::Emit(Made::Lead(TreeNode::Case, n)),
        )),
        Look::Other(Terminal::Fn) => Move::Eat(Push::P2(
            Symbol::Match,
            Symbol::Emit(Made::Lead(TreeNode::Fn, n)),
        )),
        _ => Move::Refuse,
    }
}

/// What `TyRest` does.
pub fn ty_rest_move(look: Look) -> Move
    ensures { result ≡ at_ty_rest look }
{
    match look {
        Look::Other(Terminal::Colon) => Move::Eat(Push::P3(
            Symbol::Ty,
            Symbol::Emit(Made::Inner(TreeNode::Typed)),
            Symbol::TyRest,
        )),
        _ => Move::Skip(Push::P0),
    }
}

/// What `AndRest` does.
pub fn and_rest_move(look: Look) -> Move
    ensures { result ≡ at_and_rest look }
{
    match look {
        Look::Other(Terminal::Andalso) => Move::Eat(Push::P3(
            Symbol::AndRight,
            Symbol::Emit(Made::Inner(TreeNode::Andalso)),
            Symbol::AndRest,
        )),
        _ => Move::Skip(Push::P0),
    }
}

/// What `AndRight` does.
pub fn and_right_move(look: Look) -> Move
    ensures { result ≡ at_and_right look }
{
    if is_prefix(look) {
        Move::Skip(Push::P1(Symbol::Prefix))
    } else {
        Move::Skip(Push::P4(
            Symbol::Atexp,
            Symbol::Args,
            Symbol::Ops(Root::Bare),
            Symbol::TyRest,
        ))
    }
}

/// What `OrRest` does.
pub fn or_rest_move(look: Look) -> Move
    ensures { result ≡ at_or_rest look }
{
    match look {
        Look::Other(Terminal::Orelse) => Move::Eat(Push::P3(
            Symbol::OrRight,
            Symbol::Emit(Made::Inner(TreeNode::Orelse)),
            Symbol::OrRest,
        )),
        _ => Move::Skip(Push::P0),
    }
}

/// What `OrRight` does.
pub fn or_right_move(look: Look) -> Move
    ensures { result ≡ at_or_right look }
{
    if is_prefix(look) {
        Move::Skip(Push::P1(Symbol::Prefix))
    } else {
        Move::Skip(Push::P5(
            Symbol::Atexp,
            Symbol::Args,
            Symbol::Ops(Root::Bare),
            Symbol::TyRest,
            Symbol::AndRest,
        ))
    }
}

/// What `HandleRest` does.
pub fn handle_rest_move(look: Look) -> Move
    ensures { result ≡ at_handle_rest look }
{
    match look {
        Look::Other(Terminal::Handle) => Move::Eat(Push::P2(
            Symbol::Match,
            Symbol::Emit(Made::Inner(TreeNode::Handle)),
        )),
        _ => Move::Skip(Push::P0),
    }
}

/// What `Args` does.
pub fn args_move(look: Look) -> Move
    ensures { result ≡ at_args look }
{
    if is_atexp(look) {
        Move::Skip(Push::P3(
            Symbol::Atexp,
            Symbol::Emit(Made::Inner(TreeNode::Apply)),
            Symbol::Args,
        ))
    } else {
        Move::Skip(Push::P0)
    }
}

/// What `Match` does.
pub fn match_move(look: Look) -> Move
    ensures { result ≡ at_match look }
{
    let _ = look;
    Move::Skip(Push::P5(
        Symbol::Pat,
        Symbol::WantArrow,
        Symbol::Exp,
        Symbol::Emit(Made::Inner(TreeNode::Rule)),
        Symbol::MatchBar,
    ))
}

/// What `MatchBar` does.
pub fn match_bar_move(look: Look) -> Move
    ensures { result ≡ at_match_bar look }
{
    match look {
        Look::Other(Terminal::Bar) => Move::Eat(Push::P2(
            Symbol::Match,
            Symbol::Emit(Made::Inner(TreeNode::MoreRules)),
        )),
        _ => Move::Skip(Push::P0),
    }
}

/// What `Atexp` does.
pub fn atexp_move(k: usize, n: usize, look: Look) -> Move
    ensures { result ≡ at_atexp k n look }
{
    match look {
        Look::Other(Terminal::Int(z, _)) => Move::Eat(Push::P1(Symbol::Emit(Made::Lead(
            TreeNode::Int(z),
            n,
        )))),
        Look::Other(Terminal::Char(y)) => Move::Eat(Push::P1(Symbol::Emit(Made::Lead(
            TreeNode::Char(y),
            n,
        )))),
        Look::Other(Terminal::Text(y)) => Move::Eat(Push::P1(Symbol::Emit(Made::Lead(
            TreeNode::Text(y),
            n,
        )))),
        Look::Other(Terminal::Open) => Move::Eat(Push::P1(Symbol::ParenExp(n))),
        Look::Other(Terminal::OpenBracket) => Move::Eat(Push::P1(Symbol::ListExp(n))),
        Look::Other(Terminal::OpenBrace) => Move::Eat(Push::P1(Symbol::RecordExp(n))),
        Look::Other(Terminal::Let) => Move::Eat(Push::P5(
            Symbol::Decs,
            Symbol::WantIn,
            Symbol::Seq,
            Symbol::LetEnd(k),
            Symbol::Emit(Made::Lead(TreeNode::Let, n)),
        )),
        _ => {
            if is_ident(look) {
                Move::Skip(Push::P1(Symbol::LongVid))
            } else {
                Move::Refuse
            }
        }
    }
}

/// What `LetEnd` does.
pub fn let_end_move(j: usize, look: Look) -> Move
    ensures { result ≡ at_let_end j look }
{
    match look {
        Look::Other(Terminal::End) => Move::Eat(Push::P0),
        _ => Move::Refuse,
    }
}

/// What `Seq` does.
pub fn seq_move(look: Look) -> Move
    ensures { result ≡ at_seq look }
{
    let _ = look;
    Move::Skip(Push::P2(Symbol::Exp, Symbol::SeqRest))
}

/// What `SeqRest` does.
pub fn seq_rest_move(look: Look) -> Move
    ensures { result ≡ at_seq_rest look }
{
    match look {
        Look::Other(Terminal::Semicolon) => Move::Eat(Push::P2(
            Symbol::Seq,
            Symbol::Emit(Made::Inner(TreeNode::MoreSeq)),
        )),
        _ => Move::Skip(Push::P0),
    }
}

/// What `ParenExp` does.
pub fn paren_exp_move(p: usize, look: Look) -> Move
    ensures { result ≡ at_paren_exp p look }
{
    match look {
        Look::Other(Terminal::Close) => Move::Eat(Push::P1(Symbol::Emit(Made::Lead(
            TreeNode::Unit,
            p,
        )))),
        _ => Move::Skip(Push::P2(Symbol::Exp, Symbol::ParenRest(p))),
    }
}

/// What `ParenRest` does.
pub fn paren_rest_move(p: usize, look: Look) -> Move
    ensures { result ≡ at_paren_rest p look }
{
    match look {
        Look::Other(Terminal::Close) => Move::Eat(Push::P1(Symbol::Emit(Made::Lead(
            TreeNode::Paren,
            p,
        )))),
        Look::Other(Terminal::Comma) => Move::Eat(Push::P3(
            Symbol::Items,
            Symbol::WantClose,
            Symbol::Emit(Made::Lead(TreeNode::Tuple, p)),
        )),
        Look::Other(Terminal::Semicolon) => Move::Eat(Push::P3(
            Symbol::Seq,
            Symbol::WantClose,
            Symbol::Emit(Made::Lead(TreeNode::Sequence, p)),
        )),
        _ => Move::Refuse,
    }
}

/// What `Items` does.
pub fn items_move(look: Look) -> Move
    ensures { result ≡ at_items look }
{
    let _ = look;
    Move::Skip(Push::P2(Symbol::Exp, Symbol::ItemsRest))
}

/// What `ItemsRest` does.
pub fn items_rest_move(look: Look) -> Move
    ensures { result ≡ at_items_rest look }
{
    match look {
        Look::Other(Terminal::Comma) => Move::Eat(Push::P2(
            Symbol::Items,
            Symbol::Emit(Made::Inner(TreeNode::MoreItems)),
        )),
        _ => Move::Skip(Push::P0),
    }
}

/// What `ListExp` does.
pub fn list_exp_move(p: usize, look: Look) -> Move
    ensures { result ≡ at_list_exp p look }
{
    match look {
        Look::Other(Terminal::CloseBracket) => Move::Eat(Push::P1(Symbol::Emit(Made::Lead(
            TreeNode::EmptyList,
            p,
        )))),
        _ => Move::Skip(Push::P3(
            Symbol::Items,
            Symbol::WantCloseBracket,
            Symbol::Emit(Made::Lead(TreeNode::List, p)),
        )),
    }
}

/// What `RecordExp` does.
pub fn record_exp_move(p: usize, look: Look) -> Move
    ensures { result ≡ at_record_exp p look }
{
    match look {
        Look::Other(Terminal::CloseBrace) => Move::Eat(Push::P1(Symbol::Emit(Made::Lead(
            TreeNode::EmptyRecord,
            p,
        )))),
        _ => Move::Skip(Push::P3(
            Symbol::Rows,
            Symbol::WantCloseBrace,
            Symbol::Emit(Made::Lead(TreeNode::Record, p)),
        )),
    }
}

/// What `Rows` does.
pub fn rows_move(look: Look) -> Move
    ensures { result ≡ at_rows look }
{
    let _ = look;
    Move::Skip(Push::P5(
        Symbol::Label,
        Symbol::WantEquals,
        Symbol::Exp,
        Symbol::Emit(Made::Inner(TreeNode::Row)),
        Symbol::RowsRest,
    ))
}

/// What `RowsRest` does.
pub fn rows_rest_move(look: Look) -> Move
    ensures { result ≡ at_rows_rest look }
{
    match look {
        Look::Other(Terminal::Comma) => Move::Eat(Push::P2(
            Symbol::Rows,
            Symbol::Emit(Made::Inner(TreeNode::MoreRows)),
        )),
        _ => Move::Skip(Push::P0),
    }
}

/// What `Label` does.
pub fn label_move(n: usize, look: Look) -> Move
    ensures { result ≡ at_label n look }
{
    match look {
        Look::Plain(x, _) => Move::Eat(Push::P1(Symbol::Emit(Made::Lead(TreeNode::Label(x), n)))),
        Look::Operator(x, _, _, _) => Move::Eat(Push::P1(Symbol::Emit(Made::Lead(
            TreeNode::Label(x),
            n,
        )))),
        Look::Other(Terminal::Int(z, h)) => {
            if is_label(h) {
                Move::Eat(Push::P1(Symbol::Emit(Made::Lead(TreeNode::LabelNumber(z), n))))
            } else {
                Move::Refuse
            }
        }
        _ => Move::Refuse,
    }
}
