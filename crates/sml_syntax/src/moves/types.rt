//! What the symbols of types do.

ghost use Rattle.std.specs.Prelude.{◌≡◌};
ghost use Rattle.sml_syntax.specs.Moves.{at_ty, at_ty_atom, at_ty_paren, at_ty_seq_con, at_ty_post, at_ty_factors, at_factors, at_factors_rest, at_ty_arrow, at_tys, at_tys_rest, at_record_ty, at_ty_rows, at_ty_rows_rest};

use crate::forms::{Look, Made, Terminal};
use crate::symbol::{Move, Push, Symbol};
use sml_tree::TreeNode;

/// What `Ty` does.
pub fn ty_move(look: Look) -> Move
    ensures { result ≡ at_ty look }
{
    let _ = look;
    Move::Skip(Push::P3(Symbol::TyAtom, Symbol::TyFactors, Symbol::TyArrow))
}

/// What `TyAtom` does.
pub fn ty_atom_move(n: usize, look: Look) -> Move
    ensures { result ≡ at_ty_atom n look }
{
    match look {
        Look::Other(Terminal::TyVar(x)) => Move::Eat(Push::P2(
            Symbol::Emit(Made::Lead(TreeNode::TyVar(x), n)),
            Symbol::TyPost,
        )),
        Look::Plain(x, false) => Move::Eat(Push::P2(
            Symbol::Emit(Made::Lead(TreeNode::TyCon(x), n)),
            Symbol::TyPost,
        )),
        Look::Operator(x, false, _, _) => Move::Eat(Push::P2(
            Symbol::Emit(Made::Lead(TreeNode::TyCon(x), n)),
            Symbol::TyPost,
        )),
        Look::Other(Terminal::Long(x, true)) => Move::Eat(Push::P2(
            Symbol::Emit(Made::Lead(TreeNode::LongTyCon(x), n)),
            Symbol::TyPost,
        )),
        Look::Other(Terminal::OpenBrace) => Move::Eat(Push::P2(
            Symbol::RecordTy(n),
            Symbol::TyPost,
        )),
        Look::Other(Terminal::Open) => Move::Eat(Push::P2(Symbol::Ty, Symbol::TyParen(n))),
        _ => Move::Refuse,
    }
}

/// What `TyParen` does.
pub fn ty_paren_move(p: usize, look: Look) -> Move
    ensures { result ≡ at_ty_paren p look }
{
    match look {
        Look::Other(Terminal::Comma) => Move::Eat(Push::P3(
            Symbol::Tys,
            Symbol::WantClose,
            Symbol::TySeqCon(p),
        )),
        Look::Other(Terminal::Close) => Move::Eat(Push::P2(
            Symbol::Emit(Made::Lead(TreeNode::ParenTy, p)),
            Symbol::TyPost,
        )),
        _ => Move::Refuse,
    }
}

/// What `TySeqCon` does.
pub fn ty_seq_con_move(p: usize, n: usize, look: Look) -> Move
    ensures { result ≡ at_ty_seq_con p n look }
{
    match look {
        Look::Plain(x, false) => Move::Eat(Push::P3(
            Symbol::Emit(Made::Lead(TreeNode::TyCon(x), n)),
            Symbol::Emit(Made::Lead(TreeNode::SeqConTy, p)),
            Symbol::TyPost,
        )),
        Look::Operator(x, false, _, _) => Move::Eat(Push::P3(
            Symbol::Emit(Made::Lead(TreeNode::TyCon(x), n)),
            Symbol::Emit(Made::Lead(TreeNode::SeqConTy, p)),
            Symbol::TyPost,
        )),
        Look::Other(Terminal::Long(x, true)) => Move::Eat(Push::P3(
            Symbol::Emit(Made::Lead(TreeNode::LongTyCon(x), n)),
            Symbol::Emit(Made::Lead(TreeNode::SeqConTy, p)),
            Symbol::TyPost,
        )),
        _ => Move::Refuse,
    }
}

/// What `TyPost` does.
pub fn ty_post_move(n: usize, look: Look) -> Move
    ensures { result ≡ at_ty_post n look }
{
    match look {
        Look::Plain(x, false) => Move::Eat(Push::P3(
            Symbol::Emit(Made::Lead(TreeNode::TyCon(x), n)),
            Symbol::Emit(Made::Inner(TreeNode::ConTy)),
            Symbol::TyPost,
        )),
        Look::Operator(x, false, _, _) => Move::Eat(Push::P3(
            Symbol::Emit(Made::Lead(TreeNode::TyCon(x), n)),
            Symbol::Emit(Made::Inner(TreeNode::ConTy)),
            Symbol::TyPost,
        )),
        Look::Other(Terminal::Long(x, true)) => Move::Eat(Push::P3(
            Symbol::Emit(Made::Lead(TreeNode::LongTyCon(x), n)),
            Symbol::Emit(Made::Inner(TreeNode::ConTy)),
            Symbol::TyPost,
        )),
        _ => Move::Skip(Push::P0),
    }
}

/// What `TyFactors` does.
pub fn ty_factors_move(look: Look) -> Move
    ensures { result ≡ at_ty_factors look }
{
    match look {
        Look::Plain(_, true) => Move::Eat(Push::P2(
            Symbol::Factors,
            Symbol::Emit(Made::Inner(TreeNode::ProductTy)),
        )),
        Look::Operator(_, true, _, _) => Move::Eat(Push::P2(
            Symbol::Factors,
            Symbol::Emit(Made::Inner(TreeNode::ProductTy)),
        )),
        _ => Move::Skip(Push::P0),
    }
}

/// What `Factors` does.
pub fn factors_move(look: Look) -> Move
    ensures { result ≡ at_factors look }
{
    let _ = look;
    Move::Skip(Push::P2(Symbol::TyAtom, Symbol::FactorsRest))
}

/// What `FactorsRest` does.
pub fn factors_rest_move(look: Look) -> Move
    ensures { result ≡ at_factors_rest look }
{
    match look {
        Look::Plain(_, true) => Move::Eat(Push::P2(
            Symbol::Factors,
            Symbol::Emit(Made::Inner(TreeNode::MoreFactors)),
        )),
        Look::Operator(_, true, _, _) => Move::Eat(Push::P2(
            Symbol::Factors,
            Symbol::Emit(Made::Inner(TreeNode::MoreFactors)),
        )),
        _ => Move::Skip(Push::P0),
    }
}

/// What `TyArrow` does.
pub fn ty_arrow_move(look: Look) -> Move
    ensures { result ≡ at_ty_arrow look }
{
    match look {
        Look::Other(Terminal::To) => Move::Eat(Push::P2(
            Symbol::Ty,
            Symbol::Emit(Made::Inner(TreeNode::ArrowTy)),
        )),
        _ => Move::Skip(Push::P0),
    }
}

/// What `Tys` does.
pub fn tys_move(look: Look) -> Move
    ensures { result ≡ at_tys look }
{
    let _ = look;
    Move::Skip(Push::P2(Symbol::Ty, Symbol::TysRest))
}

/// What `TysRest` does.
pub fn tys_rest_move(look: Look) -> Move
    ensures { result ≡ at_tys_rest look }
{
    match look {
        Look::Other(Terminal::Comma) => Move::Eat(Push::P2(
            Symbol::Tys,
            Symbol::Emit(Made::Inner(TreeNode::MoreTys)),
        )),
        _ => Move::Skip(Push::P0),
    }
}

/// What `RecordTy` does.
pub fn record_ty_move(p: usize, look: Look) -> Move
    ensures { result ≡ at_record_ty p look }
{
    match look {
        Look::Other(Terminal::CloseBrace) => Move::Eat(Push::P1(Symbol::Emit(Made::Lead(
            TreeNode::EmptyRecordTy,
            p,
        )))),
        _ => Move::Skip(Push::P3(
            Symbol::TyRows,
            Symbol::WantCloseBrace,
            Symbol::Emit(Made::Lead(TreeNode::RecordTy, p)),
        )),
    }
}

/// What `TyRows` does.
pub fn ty_rows_move(look: Look) -> Move
    ensures { result ≡ at_ty_rows look }
{
    let _ = look;
    Move::Skip(Push::P5(
        Symbol::Label,
        Symbol::WantColon,
        Symbol::Ty,
        Symbol::Emit(Made::Inner(TreeNode::TyRow)),
        Symbol::TyRowsRest,
    ))
}

/// What `TyRowsRest` does.
pub fn ty_rows_rest_move(look: Look) -> Move
    ensures { result ≡ at_ty_rows_rest look }
{
    match look {
        Look::Other(Terminal::Comma) => Move::Eat(Push::P2(
            Symbol::TyRows,
            Symbol::Emit(Made::Inner(TreeNode::MoreTyRows)),
        )),
        _ => Move::Skip(Push::P0),
    }
}
