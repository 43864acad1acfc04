//! What a symbol of the machine does at a terminal.

ghost use Rattle.std.specs.Prelude.{◌≡◌, false};
ghost use Rattle.sml_syntax.specs.Machine.{move_of};

mod bindings;
mod decs;
mod expressions;
mod heads;
mod names;
mod operators;
mod patterns;
mod types;
mod types_bound;
mod wanted;

use crate::forms::Look;
use crate::symbol::Move;
use crate::symbol::Symbol;
use bindings::clause_bar_move;
use bindings::clause_rest_move;
use bindings::clauses_move;
use bindings::fun_and_move;
use bindings::fun_binds_move;
use bindings::fun_paren_move;
use bindings::fun_ty_vars_move;
use bindings::ty_var_list_move;
use bindings::ty_vars_rest_move;
use bindings::val_and_move;
use bindings::val_bind_move;
use bindings::val_equals_move;
use bindings::val_paren_move;
use bindings::val_ty_vars_move;
use decs::dec_move;
use decs::decs_move;
use decs::digit_move;
use decs::local_end_move;
use decs::local_in_move;
use decs::program_move;
use decs::vids_move;
use decs::vids_rest_move;
use expressions::and_rest_move;
use expressions::and_right_move;
use expressions::args_move;
use expressions::atexp_move;
use expressions::exp_move;
use expressions::handle_rest_move;
use expressions::items_move;
use expressions::items_rest_move;
use expressions::label_move;
use expressions::let_end_move;
use expressions::list_exp_move;
use expressions::match_bar_move;
use expressions::match_move;
use expressions::or_rest_move;
use expressions::or_right_move;
use expressions::paren_exp_move;
use expressions::paren_rest_move;
use expressions::prefix_move;
use expressions::record_exp_move;
use expressions::rows_move;
use expressions::rows_rest_move;
use expressions::seq_move;
use expressions::seq_rest_move;
use expressions::ty_rest_move;
use heads::atpats_move;
use heads::atpats_rest_move;
use heads::head_closed_move;
use heads::head_end_move;
use heads::head_first_move;
use heads::head_first_name_move;
use heads::head_first_op_move;
use heads::head_move;
use heads::head_name_move;
use heads::head_op_move;
use heads::head_paren_move;
use heads::head_second_end_move;
use heads::head_second_move;
use heads::head_second_name_move;
use names::any_long_move;
use names::any_vid_move;
use names::long_vid_move;
use names::op_vid_move;
use operators::ops_move;
use operators::pat_ops_move;
use patterns::atpat_move;
use patterns::pat_arg_move;
use patterns::pat_list_move;
use patterns::pat_long_move;
use patterns::pat_move;
use patterns::pat_name_move;
use patterns::pat_name_ty_move;
use patterns::pat_op_move;
use patterns::pat_operand_move;
use patterns::pat_paren_move;
use patterns::pat_paren_rest_move;
use patterns::pat_record_move;
use patterns::pat_row_move;
use patterns::pat_rows_move;
use patterns::pat_rows_rest_move;
use patterns::pat_ty_rest_move;
use patterns::pats_move;
use patterns::pats_rest_move;
use patterns::pun_row_move;
use patterns::pun_row_ty_move;
use types::factors_move;
use types::factors_rest_move;
use types::record_ty_move;
use types::ty_arrow_move;
use types::ty_atom_move;
use types::ty_factors_move;
use types::ty_move;
use types::ty_paren_move;
use types::ty_post_move;
use types::ty_rows_move;
use types::ty_rows_rest_move;
use types::ty_seq_con_move;
use types::tys_move;
use types::tys_rest_move;
use types_bound::con_bar_move;
use types_bound::con_binds_move;
use types_bound::con_of_move;
use types_bound::dat_and_move;
use types_bound::dat_binds_move;
use types_bound::ex_and_move;
use types_bound::ex_binds_move;
use types_bound::ex_rest_move;
use types_bound::ty_con_move;
use types_bound::ty_vars_move;
use types_bound::typ_and_move;
use types_bound::typ_binds_move;
use wanted::eof_move;
use wanted::want_arrow_move;
use wanted::want_close_brace_move;
use wanted::want_close_bracket_move;
use wanted::want_close_move;
use wanted::want_colon_move;
use wanted::want_do_move;
use wanted::want_else_move;
use wanted::want_equals_move;
use wanted::want_in_move;
use wanted::want_of_move;
use wanted::want_then_move;

/// What a symbol does at a terminal, where `left` terminals are still to come with this one, `count` directives are in force, and `has_infix` says whether some identifier has infix status.
pub fn move_at(symbol: Symbol, has_infix: bool, count: usize, left: usize, look: Look) -> Move
    ensures { result ≡ move_of false symbol has_infix count left look }
{
    match symbol {
        Symbol::Program => program_move(look),
        Symbol::Decs => decs_move(left, look),
        Symbol::Dec => dec_move(count, left, look),
        Symbol::LocalIn(j) => local_in_move(j, count, look),
        Symbol::LocalEnd(j, m) => local_end_move(j, m, look),
        Symbol::Digit(r, p) => digit_move(r, p, look),
        Symbol::Vids(u) => vids_move(u, left, look),
        Symbol::VidsRest(u) => vids_rest_move(u, look),
        Symbol::ValTyVars => val_ty_vars_move(left, look),
        Symbol::ValParen(p) => val_paren_move(p, look),
        Symbol::TyVarList => ty_var_list_move(left, look),
        Symbol::TyVarsRest => ty_vars_rest_move(look),
        Symbol::ValBind => val_bind_move(left, look),
        Symbol::ValEquals => val_equals_move(look),
        Symbol::ValAnd => val_and_move(look),
        Symbol::FunTyVars => fun_ty_vars_move(left, look),
        Symbol::FunParen(p) => fun_paren_move(p, has_infix, look),
        Symbol::FunBinds => fun_binds_move(look),
        Symbol::FunAnd => fun_and_move(look),
        Symbol::Clauses => clauses_move(look),
        Symbol::ClauseRest => clause_rest_move(look),
        Symbol::ClauseBar => clause_bar_move(look),
        Symbol::Head => head_move(has_infix, left, look),
        Symbol::HeadName => head_name_move(left, look),
        Symbol::HeadOp => head_op_move(left, look),
        Symbol::Atpats => atpats_move(look),
        Symbol::AtpatsRest => atpats_rest_move(look),
        Symbol::HeadParen(p) => head_paren_move(p, left, look),
        Symbol::HeadFirstOp(q, p) => head_first_op_move(q, p, left, look),
        Symbol::HeadFirstName(b, p) => head_first_name_move(b, p, left, look),
        Symbol::HeadFirst(p) => head_first_move(p, left, look),
        Symbol::HeadSecond(c, p) => head_second_move(c, p, look),
        Symbol::HeadSecondName(c, p) => head_second_name_move(c, p, look),
        Symbol::HeadSecondEnd(c, p) => head_second_end_move(c, p, look),
        Symbol::HeadEnd(p) => head_end_move(p, look),
        Symbol::HeadClosed(p) => head_closed_move(p, left, look),
        Symbol::TypBinds => typ_binds_move(look),
        Symbol::TypAnd => typ_and_move(look),
        Symbol::TyVars => ty_vars_move(left, look),
        Symbol::TyCon => ty_con_move(left, look),
        Symbol::DatBinds => dat_binds_move(look),
        Symbol::DatAnd => dat_and_move(look),
        Symbol::ConBinds => con_binds_move(look),
        Symbol::ConOf => con_of_move(look),
        Symbol::ConBar => con_bar_move(look),
        Symbol::ExBinds => ex_binds_move(look),
        Symbol::ExRest => ex_rest_move(look),
        Symbol::ExAnd => ex_and_move(look),
        Symbol::OpVid => op_vid_move(left, look),
        Symbol::AnyVid => any_vid_move(left, look),
        Symbol::LongVid => long_vid_move(left, look),
        Symbol::AnyLong => any_long_move(left, look),
        Symbol::Exp => exp_move(look),
        Symbol::Prefix => prefix_move(left, look),
        Symbol::TyRest => ty_rest_move(look),
        Symbol::AndRest => and_rest_move(look),
        Symbol::AndRight => and_right_move(look),
        Symbol::OrRest => or_rest_move(look),
        Symbol::OrRight => or_right_move(look),
        Symbol::HandleRest => handle_rest_move(look),
        Symbol::Args => args_move(look),
        Symbol::Ops(c) => ops_move(c, left, look),
        Symbol::Match => match_move(look),
        Symbol::MatchBar => match_bar_move(look),
        Symbol::Atexp => atexp_move(count, left, look),
        Symbol::LetEnd(j) => let_end_move(j, look),
        Symbol::Seq => seq_move(look),
        Symbol::SeqRest => seq_rest_move(look),
        Symbol::ParenExp(p) => paren_exp_move(p, look),
        Symbol::ParenRest(p) => paren_rest_move(p, look),
        Symbol::Items => items_move(look),
        Symbol::ItemsRest => items_rest_move(look),
        Symbol::ListExp(p) => list_exp_move(p, look),
        Symbol::RecordExp(p) => record_exp_move(p, look),
        Symbol::Rows => rows_move(look),
        Symbol::RowsRest => rows_rest_move(look),
        Symbol::Label => label_move(left, look),
        Symbol::Pat => pat_move(left, look),
        Symbol::PatOp(q) => pat_op_move(q, left, look),
        Symbol::PatName => pat_name_move(look),
        Symbol::PatNameTy => pat_name_ty_move(look),
        Symbol::PatLong => pat_long_move(look),
        Symbol::PatTyRest => pat_ty_rest_move(look),
        Symbol::PatOps(c) => pat_ops_move(c, left, look),
        Symbol::PatOperand => pat_operand_move(look),
        Symbol::PatArg => pat_arg_move(look),
        Symbol::Atpat => atpat_move(left, look),
        Symbol::PatParen(p) => pat_paren_move(p, look),
        Symbol::PatParenRest(p) => pat_paren_rest_move(p, look),
        Symbol::Pats => pats_move(look),
        Symbol::PatsRest => pats_rest_move(look),
        Symbol::PatList(p) => pat_list_move(p, look),
        Symbol::PatRecord(p) => pat_record_move(p, look),
        Symbol::PatRows => pat_rows_move(look),
        Symbol::PatRowsRest => pat_rows_rest_move(look),
        Symbol::PatRow => pat_row_move(left, look),
        Symbol::PunRow => pun_row_move(look),
        Symbol::PunRowTy => pun_row_ty_move(look),
        Symbol::Ty => ty_move(look),
        Symbol::TyAtom => ty_atom_move(left, look),
        Symbol::TyParen(p) => ty_paren_move(p, look),
        Symbol::TySeqCon(p) => ty_seq_con_move(p, left, look),
        Symbol::TyPost => ty_post_move(left, look),
        Symbol::TyFactors => ty_factors_move(look),
        Symbol::Factors => factors_move(look),
        Symbol::FactorsRest => factors_rest_move(look),
        Symbol::TyArrow => ty_arrow_move(look),
        Symbol::Tys => tys_move(look),
        Symbol::TysRest => tys_rest_move(look),
        Symbol::RecordTy(p) => record_ty_move(p, look),
        Symbol::TyRows => ty_rows_move(look),
        Symbol::TyRowsRest => ty_rows_rest_move(look),
        Symbol::WantClose => want_close_move(look),
        Symbol::WantCloseBracket => want_close_bracket_move(look),
        Symbol::WantCloseBrace => want_close_brace_move(look),
        Symbol::WantEquals => want_equals_move(look),
        Symbol::WantColon => want_colon_move(look),
        Symbol::WantThen => want_then_move(look),
        Symbol::WantElse => want_else_move(look),
        Symbol::WantDo => want_do_move(look),
        Symbol::WantOf => want_of_move(look),
        Symbol::WantIn => want_in_move(look),
        Symbol::WantArrow => want_arrow_move(look),
        Symbol::Eof => eof_move(look),
        Symbol::Emit(_) => Move::Refuse,
    }
}
