//! The numbers of the variables that schemes leave open at the end.

ghost use Rattle.std.specs.Prelude.{◌≡◌, ◌<◌, ◌++◌, List, ℕ, length, IfOk};
ghost use Rattle.sml_types.specs.Poly.{has_num};
ghost use Rattle.sml_types.specs.Schemes.{scheme_poly};
ghost use Rattle.sml_types.specs.Forms.{tree};
ghost use Rattle.sml_unify.specs.Solved.{AreBindings};
ghost use Rattle.sml_unify.specs.Variables.{AreVariables};
ghost use Rattle.infer_checks.specs.Checked.{ending};
ghost use Rattle.infer_checks.specs.Ending.{Lists, IsOpenIn, IsOpenAmong, IsOpenNumber};

use crate::numbers::variable_numbers;
use infer_state::{Settled, Unknowns};
use sml_types::TyVar;
use sml_unify::Subst;
use sml_unify::resolve::Rename;
use sml_unify::variables::variables;
use smlc_base::NoMemory;
use std::alloc::Global;

fn has_num(vars: &[TyVar], num: u32) -> bool
    ensures { result ≡ has_num vars.now num }
{
    vars.iter().any(|var| num == var.num)
}

// Adds the numbers of what a variable stands for, unless it is one of these.
fn add_open(
    alloc: Global,
    unknowns: &Unknowns,
    renames: &[Rename],
    vars: &[TyVar],
    var: TyVar,
    numbers: &mut Vec<u32>,
) -> Result<(), NoMemory>
    requires { AreBindings unknowns.now.types unknowns.now.subst.bound }
    ensures { IfOk result (λ _. (more : List ℕ) × (numbers.new.items ≡ numbers.old.items ++ more) × Lists (IsOpenIn (ending unknowns.now renames.now) vars.now var) more) }
{
    if has_num(vars, var.num) {
        return Ok(());
    }
    let mut more = variable_numbers(alloc, unknowns, renames, var)?;
    numbers.append(&mut more)?;
    Ok(())
}

// The numbers of what variables stand for that are none of these.
fn open_among(
    alloc: Global,
    unknowns: &Unknowns,
    renames: &[Rename],
    vars: &[TyVar],
    inner: &[TyVar],
) -> Result<Vec<u32>, NoMemory>
    requires { AreBindings unknowns.now.types unknowns.now.subst.bound }
    ensures { IfOk result (λ numbers. Lists (IsOpenAmong (ending unknowns.now renames.now) vars.now inner.now) numbers.items) }
{
    let mut numbers = Vec::new(alloc);
    'inner: for var in inner {
        add_open(alloc, unknowns, renames, vars, *var, &mut numbers)?;
    }
    Ok(numbers)
}

/// The numbers of the variables that a settled scheme leaves open.
pub(crate) fn open_numbers(
    alloc: Global,
    unknowns: &Unknowns,
    renames: &[Rename],
    settled: &Settled,
) -> Result<Vec<u32>, NoMemory>
    requires bindings { AreBindings unknowns.now.types unknowns.now.subst.bound }
    requires there { settled.now.scheme.body.0 < length unknowns.now.types }
    ensures { IfOk result (λ numbers. Lists (IsOpenNumber (ending unknowns.now renames.now) (scheme_poly unknowns.now.types settled.now.scheme)) numbers.items) }
{
    let inner = inner_variables(alloc, unknowns, settled)?;
    let vars = settled.scheme.vars.items();
    let numbers = open_among(alloc, unknowns, renames, vars, &inner)?;
    Ok(numbers)
}

// The variables that stand in the type of a settled scheme itself.
fn inner_variables(
    alloc: Global,
    unknowns: &Unknowns,
    settled: &Settled,
) -> Result<Vec<TyVar>, NoMemory>
    requires there { settled.now.scheme.body.0 < length unknowns.now.types }
    ensures { IfOk result (λ vars. AreVariables vars.items (tree unknowns.now.types settled.now.scheme.body.0)) }
{
    let none = Subst::new(alloc);
    let vars = variables(alloc, &unknowns.types, &none, settled.scheme.body)?;
    Ok(vars)
}
