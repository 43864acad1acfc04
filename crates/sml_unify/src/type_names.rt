//! The type names of a type.

ghost use Rattle.std.specs.Prelude.{◌<◌, length, IfOk, OnOk};
ghost use Rattle.sml_types.specs.Forms.{head_of};
ghost use Rattle.sml_unify.specs.Solved.{AreBindings, IsSolved, meant, under};
ghost use Rattle.sml_unify.specs.TypeNames.{AreTypeNames, IsNoted};

use crate::head::head;
use crate::parts::parts;
use crate::subst::Subst;
use crate::visit::visit;
use indexmap::IndexSet;
use sml_types::{Ty, TyForm, Types};
use smlc_base::NoMemory;
use std::alloc::Global;

// Notes the type name of a form.
fn note(names: &mut IndexSet<u32>, form: &TyForm) -> Result<(), NoMemory>
    ensures { OnOk result (IsNoted names.old.keys (head_of form.now) names.new.keys) }
{
    if let TyForm::Named(name, _) = form {
        visit(names, *name)?;
    }
    Ok(())
}

// The walk of `type_names`.
fn names_in(
    alloc: Global,
    forms: &[TyForm],
    bound: &[Option<Ty>],
    ty: Ty,
) -> Result<IndexSet<u32>, NoMemory>
    requires solved { IsSolved forms.now bound.now }
    requires here { ty.0 < length forms.now }
    ensures { IfOk result (λ ns. AreTypeNames ns.keys (under forms.now (meant forms.now bound.now) ty.0)) }
{
    let mut seen = IndexSet::new(alloc);
    let mut names = IndexSet::new(alloc);
    let mut work = Vec::new(alloc);
    work.push(ty.0)?;
    while let Some(next) = work.pop() {
        let now = head(forms, bound, Ty(next));
        let form = &forms[now.0 as usize];
        match form {
            TyForm::Var(_) => {}
            _ => {
                let first = visit(&mut seen, now.0)?;
                if first {
                    note(&mut names, form)?;
                    let mut inner = parts(alloc, form)?;
                    work.append(&mut inner)?;
                }
            }
        }
    }
    Ok(names)
}

/// The numbers of the type names that stand in a type under what is bound.
pub fn type_names(alloc: Global, types: &Types, subst: &Subst, ty: Ty) -> Result<Vec<u32>, NoMemory>
    requires bindings { AreBindings types.now subst.now.bound }
    requires here { ty.0 < length types.now }
    ensures { IfOk result (λ ns. AreTypeNames ns.items (under types.now (meant types.now subst.now.bound) ty.0)) }
{
    let names = names_in(alloc, types.forms(), subst.bound.items(), ty)?;
    let numbers = Vec::from_slice(alloc, names.as_slice())?;
    Ok(numbers)
}
