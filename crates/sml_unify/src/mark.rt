//! What a type needs to admit equality.

ghost use Rattle.std.specs.Prelude.{◌≡◌, ◌<◌, None, length};
ghost use Rattle.sml_types.specs.Tree.{head_equality};
ghost use Rattle.sml_types.specs.Forms.{head_of, var_of};
ghost use Rattle.sml_unify.specs.Solved.{IsSolved};
ghost use Rattle.sml_unify.specs.Simplified.{IsMarking};

use crate::error::UnifyError;
use crate::head::head;
use crate::parts::parts;
use crate::visit::visit;
use indexmap::IndexSet;
use sml_types::{Equality, Ty, TyForm, TyVar, TypeName};
use std::alloc::Global;

// How a form that is no variable admits equality.
fn equality(names: &[TypeName], form: &TyForm) -> Equality
    requires { var_of form.now ≡ None }
    ensures { result ≡ head_equality names.now (head_of form.now) }
{
    match form {
        TyForm::Fields(_) => Equality::Parts,
        TyForm::Named(n, _) => match names.get(*n as usize) {
            Some(name) => name.eq,
            None => Equality::Never,
        },
        _ => Equality::Never,
    }
}

/// A variable that has to be marked for a type to admit equality.
pub(crate) fn unmarked(
    alloc: Global,
    forms: &[TyForm],
    bound: &[Option<Ty>],
    names: &[TypeName],
    ty: Ty,
) -> Result<Option<TyVar>, UnifyError>
    requires solved { IsSolved forms.now bound.now }
    requires here { ty.0 < length forms.now }
    ensures { IsMarking names.now forms.now bound.now ty.0 result }
{
    let mut seen = IndexSet::new(alloc);
    let mut work = Vec::new(alloc);
    work.push(ty.0)?;
    while let Some(next) = work.pop() {
        let now = head(forms, bound, Ty(next));
        let form = &forms[now.0 as usize];
        match form {
            TyForm::Var(v) => {
                if !v.eq {
                    return Ok(Some(*v));
                }
            }
            _ => match equality(names, form) {
                Equality::Never => return Err(UnifyError::NoEquality),
                Equality::Always => {}
                Equality::Parts => {
                    if visit(&mut seen, now.0)? {
                        let mut found = parts(alloc, form)?;
                        work.append(&mut found)?;
                    }
                }
            },
        }
    }
    Ok(None)
}
