//! What the symbols of type, datatype and exception bindings do.

ghost use Rattle.std.specs.Prelude.{◌≡◌};
ghost use Rattle.sml_syntax.specs.Moves.{at_typ_binds, at_typ_and, at_ty_vars, at_ty_con, at_dat_binds, at_dat_and, at_con_binds, at_con_of, at_con_bar, at_ex_binds, at_ex_rest, at_ex_and};

use crate::forms::{Look, Made, Terminal};
use crate::symbol::{Move, Push, Symbol};
use sml_tree::TreeNode;

/// What `TypBinds` does.
pub fn typ_binds_move(look: Look) -> Move
    ensures { result ≡ at_typ_binds look }
{
    let _ = look;
    Move::Skip(Push::P6(
        Symbol::TyVars,
        Symbol::TyCon,
        Symbol::WantEquals,
        Symbol::Ty,
        Symbol::Emit(Made::Inner(TreeNode::TypBind)),
        Symbol::TypAnd,
    ))
}

/// What `TypAnd` does.
pub fn typ_and_move(look: Look) -> Move
    ensures { result ≡ at_typ_and look }
{
    match look {
        Look::Other(Terminal::And) => Move::Eat(Push::P2(
            Symbol::TypBinds,
            Symbol::Emit(Made::Inner(TreeNode::MoreTypBinds)),
        )),
        _ => Move::Skip(Push::P0),
    }
}

/// What `TyVars` does.
pub fn ty_vars_move(n: usize, look: Look) -> Move
    ensures { result ≡ at_ty_vars n look }
{
    match look {
        Look::Other(Terminal::TyVar(x)) => Move::Eat(Push::P1(Symbol::Emit(Made::Lead(
            TreeNode::TyVar(x),
            n,
        )))),
        Look::Other(Terminal::Open) => Move::Eat(Push::P3(
            Symbol::TyVarList,
            Symbol::WantClose,
            Symbol::Emit(Made::Lead(TreeNode::TyVarSeq, n)),
        )),
        _ => Move::Skip(Push::P1(Symbol::Emit(Made::Lead(TreeNode::NoTyVars, n)))),
    }
}

/// What `TyCon` does.
pub fn ty_con_move(n: usize, look: Look) -> Move
    ensures { result ≡ at_ty_con n look }
{
    match look {
        Look::Plain(x, false) => Move::Eat(Push::P1(Symbol::Emit(Made::Lead(
            TreeNode::TyCon(x),
            n,
        )))),
        Look::Operator(x, false, _, _) => Move::Eat(Push::P1(Symbol::Emit(Made::Lead(
            TreeNode::TyCon(x),
            n,
        )))),
        _ => Move::Refuse,
    }
}

/// What `DatBinds` does.
pub fn dat_binds_move(look: Look) -> Move
    ensures { result ≡ at_dat_binds look }
{
    let _ = look;
    Move::Skip(Push::P6(
        Symbol::TyVars,
        Symbol::TyCon,
        Symbol::WantEquals,
        Symbol::ConBinds,
        Symbol::Emit(Made::Inner(TreeNode::DatBind)),
        Symbol::DatAnd,
    ))
}

/// What `DatAnd` does.
pub fn dat_and_move(look: Look) -> Move
    ensures { result ≡ at_dat_and look }
{
    match look {
        Look::Other(Terminal::And) => Move::Eat(Push::P2(
            Symbol::DatBinds,
            Symbol::Emit(Made::Inner(TreeNode::MoreDatBinds)),
        )),
        _ => Move::Skip(Push::P0),
    }
}

/// What `ConBinds` does.
pub fn con_binds_move(look: Look) -> Move
    ensures { result ≡ at_con_binds look }
{
    let _ = look;
    Move::Skip(Push::P2(Symbol::OpVid, Symbol::ConOf))
}

/// What `ConOf` does.
pub fn con_of_move(look: Look) -> Move
    ensures { result ≡ at_con_of look }
{
    match look {
        Look::Other(Terminal::Of) => Move::Eat(Push::P3(
            Symbol::Ty,
            Symbol::Emit(Made::Inner(TreeNode::ConBindOf)),
            Symbol::ConBar,
        )),
        _ => Move::Skip(Push::P2(Symbol::Emit(Made::Inner(TreeNode::ConBind)), Symbol::ConBar)),
    }
}

/// What `ConBar` does.
pub fn con_bar_move(look: Look) -> Move
    ensures { result ≡ at_con_bar look }
{
    match look {
        Look::Other(Terminal::Bar) => Move::Eat(Push::P2(
            Symbol::ConBinds,
            Symbol::Emit(Made::Inner(TreeNode::MoreConBinds)),
        )),
        _ => Move::Skip(Push::P0),
    }
}

/// What `ExBinds` does.
pub fn ex_binds_move(look: Look) -> Move
    ensures { result ≡ at_ex_binds look }
{
    let _ = look;
    Move::Skip(Push::P2(Symbol::OpVid, Symbol::ExRest))
}

/// What `ExRest` does.
pub fn ex_rest_move(look: Look) -> Move
    ensures { result ≡ at_ex_rest look }
{
    match look {
        Look::Other(Terminal::Of) => Move::Eat(Push::P3(
            Symbol::Ty,
            Symbol::Emit(Made::Inner(TreeNode::ExBindOf)),
            Symbol::ExAnd,
        )),
        Look::Other(Terminal::Equals) => Move::Eat(Push::P3(
            Symbol::LongVid,
            Symbol::Emit(Made::Inner(TreeNode::ExBindIs)),
            Symbol::ExAnd,
        )),
        _ => Move::Skip(Push::P2(Symbol::Emit(Made::Inner(TreeNode::ExBind)), Symbol::ExAnd)),
    }
}

/// What `ExAnd` does.
pub fn ex_and_move(look: Look) -> Move
    ensures { result ≡ at_ex_and look }
{
    match look {
        Look::Other(Terminal::And) => Move::Eat(Push::P2(
            Symbol::ExBinds,
            Symbol::Emit(Made::Inner(TreeNode::MoreExBinds)),
        )),
        _ => Move::Skip(Push::P0),
    }
}
