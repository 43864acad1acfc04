//! What the symbols of bindings do.

ghost use Rattle.std.specs.Prelude.{◌≡◌};
ghost use Rattle.sml_syntax.specs.Moves.{at_val_ty_vars, at_val_paren, at_ty_var_list, at_ty_vars_rest, at_val_bind, at_val_equals, at_val_and, at_fun_ty_vars, at_fun_paren, at_fun_binds, at_fun_and, at_clauses, at_clause_rest, at_clause_bar};

use crate::forms::{Look, Made, Root, Terminal};
use crate::symbol::{Move, Push, Symbol};
use sml_tree::TreeNode;

/// What `ValTyVars` does.
pub fn val_ty_vars_move(n: usize, look: Look) -> Move
    ensures { result ≡ at_val_ty_vars n look }
{
    match look {
        Look::Other(Terminal::TyVar(x)) => Move::Eat(Push::P2(
            Symbol::Emit(Made::Lead(TreeNode::TyVar(x), n)),
            Symbol::ValBind,
        )),
        Look::Other(Terminal::Open) => Move::Eat(Push::P1(Symbol::ValParen(n))),
        _ => Move::Skip(Push::P2(
            Symbol::Emit(Made::Lead(TreeNode::NoTyVars, n)),
            Symbol::ValBind,
        )),
    }
}

/// What `ValParen` does.
pub fn val_paren_move(p: usize, look: Look) -> Move
    ensures { result ≡ at_val_paren p look }
{
    match look {
        Look::Other(Terminal::TyVar(_)) => Move::Skip(Push::P4(
            Symbol::TyVarList,
            Symbol::WantClose,
            Symbol::Emit(Made::Lead(TreeNode::TyVarSeq, p)),
            Symbol::ValBind,
        )),
        _ => Move::Skip(Push::P5(
            Symbol::Emit(Made::Lead(TreeNode::NoTyVars, p)),
            Symbol::PatParen(p),
            Symbol::PatOps(Root::Bare),
            Symbol::PatTyRest,
            Symbol::ValEquals,
        )),
    }
}

/// What `TyVarList` does.
pub fn ty_var_list_move(n: usize, look: Look) -> Move
    ensures { result ≡ at_ty_var_list n look }
{
    match look {
        Look::Other(Terminal::TyVar(x)) => Move::Eat(Push::P2(
            Symbol::Emit(Made::Lead(TreeNode::TyVar(x), n)),
            Symbol::TyVarsRest,
        )),
        _ => Move::Refuse,
    }
}

/// What `TyVarsRest` does.
pub fn ty_vars_rest_move(look: Look) -> Move
    ensures { result ≡ at_ty_vars_rest look }
{
    match look {
        Look::Other(Terminal::Comma) => Move::Eat(Push::P2(
            Symbol::TyVarList,
            Symbol::Emit(Made::Inner(TreeNode::MoreTyVars)),
        )),
        _ => Move::Skip(Push::P0),
    }
}

/// What `ValBind` does.
pub fn val_bind_move(n: usize, look: Look) -> Move
    ensures { result ≡ at_val_bind n look }
{
    match look {
        Look::Other(Terminal::Rec) => Move::Eat(Push::P2(
            Symbol::ValBind,
            Symbol::Emit(Made::Lead(TreeNode::Rec, n)),
        )),
        _ => Move::Skip(Push::P2(Symbol::Pat, Symbol::ValEquals)),
    }
}

/// What `ValEquals` does.
pub fn val_equals_move(look: Look) -> Move
    ensures { result ≡ at_val_equals look }
{
    match look {
        Look::Other(Terminal::Equals) => Move::Eat(Push::P3(
            Symbol::Exp,
            Symbol::Emit(Made::Inner(TreeNode::ValBind)),
            Symbol::ValAnd,
        )),
        _ => Move::Refuse,
    }
}

/// What `ValAnd` does.
pub fn val_and_move(look: Look) -> Move
    ensures { result ≡ at_val_and look }
{
    match look {
        Look::Other(Terminal::And) => Move::Eat(Push::P2(
            Symbol::ValBind,
            Symbol::Emit(Made::Inner(TreeNode::MoreValBinds)),
        )),
        _ => Move::Skip(Push::P0),
    }
}

/// What `FunTyVars` does.
pub fn fun_ty_vars_move(n: usize, look: Look) -> Move
    ensures { result ≡ at_fun_ty_vars n look }
{
    match look {
        Look::Other(Terminal::TyVar(x)) => Move::Eat(Push::P2(
            Symbol::Emit(Made::Lead(TreeNode::TyVar(x), n)),
            Symbol::FunBinds,
        )),
        Look::Other(Terminal::Open) => Move::Eat(Push::P1(Symbol::FunParen(n))),
        _ => Move::Skip(Push::P2(
            Symbol::Emit(Made::Lead(TreeNode::NoTyVars, n)),
            Symbol::FunBinds,
        )),
    }
}

/// What `FunParen` does.
pub fn fun_paren_move(p: usize, i: bool, look: Look) -> Move
    ensures { result ≡ at_fun_paren p i look }
{
    match look {
        Look::Other(Terminal::TyVar(_)) => Move::Skip(Push::P4(
            Symbol::TyVarList,
            Symbol::WantClose,
            Symbol::Emit(Made::Lead(TreeNode::TyVarSeq, p)),
            Symbol::FunBinds,
        )),
        _ => {
            if i {
                Move::Skip(Push::P4(
                    Symbol::Emit(Made::Lead(TreeNode::NoTyVars, p)),
                    Symbol::HeadParen(p),
                    Symbol::ClauseRest,
                    Symbol::FunAnd,
                ))
            } else {
                Move::Refuse
            }
        }
    }
}

/// What `FunBinds` does.
pub fn fun_binds_move(look: Look) -> Move
    ensures { result ≡ at_fun_binds look }
{
    let _ = look;
    Move::Skip(Push::P2(Symbol::Clauses, Symbol::FunAnd))
}

/// What `FunAnd` does.
pub fn fun_and_move(look: Look) -> Move
    ensures { result ≡ at_fun_and look }
{
    match look {
        Look::Other(Terminal::And) => Move::Eat(Push::P2(
            Symbol::FunBinds,
            Symbol::Emit(Made::Inner(TreeNode::MoreFunBinds)),
        )),
        _ => Move::Skip(Push::P0),
    }
}

/// What `Clauses` does.
pub fn clauses_move(look: Look) -> Move
    ensures { result ≡ at_clauses look }
{
    let _ = look;
    Move::Skip(Push::P2(Symbol::Head, Symbol::ClauseRest))
}

/// What `ClauseRest` does.
pub fn clause_rest_move(look: Look) -> Move
    ensures { result ≡ at_clause_rest look }
{
    match look {
        Look::Other(Terminal::Colon) => Move::Eat(Push::P5(
            Symbol::Ty,
            Symbol::WantEquals,
            Symbol::Exp,
            Symbol::Emit(Made::Inner(TreeNode::TypedClause)),
            Symbol::ClauseBar,
        )),
        Look::Other(Terminal::Equals) => Move::Eat(Push::P3(
            Symbol::Exp,
            Symbol::Emit(Made::Inner(TreeNode::Clause)),
            Symbol::ClauseBar,
        )),
        _ => Move::Refuse,
    }
}

/// What `ClauseBar` does.
pub fn clause_bar_move(look: Look) -> Move
    ensures { result ≡ at_clause_bar look }
{
    match look {
        Look::Other(Terminal::Bar) => Move::Eat(Push::P2(
            Symbol::Clauses,
            Symbol::Emit(Made::Inner(TreeNode::MoreClauses)),
        )),
        _ => Move::Skip(Push::P0),
    }
}
