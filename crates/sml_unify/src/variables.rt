//! The variables of a type.

ghost use Rattle.std.specs.Prelude.{◌<◌, length, IfOk};
ghost use Rattle.sml_unify.specs.Solved.{AreBindings, IsSolved, meant, under};
ghost use Rattle.sml_unify.specs.Variables.{AreVariables};

use crate::head::head;
use crate::parts::parts;
use crate::subst::Subst;
use crate::visit::visit;
use indexmap::IndexSet;
use sml_types::{Ty, TyForm, TyVar, Types};
use smlc_base::NoMemory;
use std::alloc::Global;

// The walk of `variables`; `numbers` are those of the variables that were found.
fn found_in(
    alloc: Global,
    forms: &[TyForm],
    bound: &[Option<Ty>],
    ty: Ty,
) -> Result<Vec<TyVar>, NoMemory>
    requires solved { IsSolved forms.now bound.now }
    requires here { ty.0 < length forms.now }
    ensures { IfOk result (λ vs. AreVariables vs.items (under forms.now (meant forms.now bound.now) ty.0)) }
{
    let mut seen = IndexSet::new(alloc);
    let mut numbers = IndexSet::new(alloc);
    let mut found = Vec::new(alloc);
    let mut work = Vec::new(alloc);
    work.push(ty.0)?;
    while let Some(next) = work.pop() {
        let now = head(forms, bound, Ty(next));
        let form = &forms[now.0 as usize];
        match form {
            TyForm::Var(v) => {
                let new = visit(&mut numbers, v.num)?;
                if new {
                    found.push(*v)?;
                }
            }
            _ => {
                let first = visit(&mut seen, now.0)?;
                if first {
                    let mut inner = parts(alloc, form)?;
                    work.append(&mut inner)?;
                }
            }
        }
    }
    Ok(found)
}

/// The variables that stand in a type under what is bound, each once.
pub fn variables(
    alloc: Global,
    types: &Types,
    subst: &Subst,
    ty: Ty,
) -> Result<Vec<TyVar>, NoMemory>
    requires bindings { AreBindings types.now subst.now.bound }
    requires here { ty.0 < length types.now }
    ensures { IfOk result (λ vs. AreVariables vs.items (under types.now (meant types.now subst.now.bound) ty.0)) }
{
    let found = found_in(alloc, types.forms(), subst.bound.items(), ty)?;
    Ok(found)
}
