//! Lists of variables.

ghost use Rattle.std.specs.Prelude.{◌≡◌, ◌++◌, ◌∷◌, [], cond, IfOk};
ghost use Rattle.sml_types.specs.Poly.{has_num};
ghost use Rattle.infer_parts.specs.Held.{is_var, among};
ghost use Rattle.infer_closing.specs.Found.{with_vars, without, left_of};

use sml_types::TyVar;
use smlc_base::{NoMemory, Row};
use std::alloc::Global;

pub(crate) fn has_num(vars: &[TyVar], num: u32) -> bool
    ensures { result ≡ has_num vars.now num }
{
    vars.iter().any(|var| num == var.num)
}

fn is_var(var: TyVar, other: TyVar) -> bool
    ensures { result ≡ is_var var other }
{
    var.num == other.num && (if var.eq { other.eq } else { !other.eq })
}

fn among(vars: &[TyVar], var: TyVar) -> bool
    ensures { result ≡ among vars.now var }
{
    vars.iter().any(|other| is_var(var, *other))
}

fn push_unless(vars: &mut Row<TyVar>, skip: bool, var: TyVar) -> Result<(), NoMemory>
    ensures { IfOk result (λ _. vars.new ≡ cond skip vars.old (vars.old ++ var ∷ [])) }
{
    if skip {
        return Ok(());
    }
    vars.push(var)
}

/// Puts more variables last, one for each number that is not there.
pub(crate) fn add_once(vars: &mut Row<TyVar>, more: &[TyVar]) -> Result<(), NoMemory>
    ensures { IfOk result (λ _. vars.new ≡ with_vars more.now vars.old) }
{
    'more: for var in more {
        let there = has_num(vars.items(), var.num);
        push_unless(vars, there, *var)?;
    }
    Ok(())
}

/// Puts more variables last.
pub(crate) fn add_all(vars: &mut Row<TyVar>, more: &[TyVar]) -> Result<(), NoMemory>
    ensures { IfOk result (λ _. vars.new ≡ vars.old ++ more.now) }
{
    'more: for var in more {
        vars.push(*var)?;
    }
    Ok(())
}

/// Puts those variables last whose numbers are not among these.
pub(crate) fn add_others(
    vars: &mut Row<TyVar>,
    these: &[TyVar],
    more: &[TyVar],
) -> Result<(), NoMemory>
    ensures { IfOk result (λ _. vars.new ≡ vars.old ++ left_of these.now more.now) }
{
    'more: for var in more {
        push_unless(vars, has_num(these, var.num), *var)?;
    }
    Ok(())
}

/// The variables that are not open.
pub(crate) fn without(alloc: Global, left: &[TyVar], vars: &[TyVar]) -> Result<Row<TyVar>, NoMemory>
    ensures { IfOk result (λ found. found ≡ without left.now vars.now) }
{
    let mut found = Row::new(alloc);
    'vars: for var in vars {
        push_unless(&mut found, among(left, *var), *var)?;
    }
    Ok(found)
}

/// The same variables again.
pub(crate) fn copied(alloc: Global, vars: &[TyVar]) -> Result<Row<TyVar>, NoMemory>
    ensures { IfOk result (λ copy. copy ≡ vars.now) }
{
    Ok(Row::from_vec(Vec::from_slice(alloc, vars)?))
}
