//! Copies of types, with types in the place of variables.

ghost use Rattle.std.specs.Prelude.{◌≡◌, ◌<◌, ◌≤◌, ℕ, nat_eq, length, map, fold, slice_get, IfOk, Some};
ghost use Rattle.std.specs.List.{AllByRecursion, find};
ghost use Rattle.sml_types.specs.declared.types.TyForm.{TyForm};
ghost use Rattle.sml_types.specs.Tree.{inst};
ghost use Rattle.sml_types.specs.Forms.{tree, parts_of};
ghost use Rattle.sml_unify.specs.Steps.{IsLonger};
ghost use Rattle.infer_parts.specs.Copies.{moved, moved_ty, moved_fields, moved_form, given_types, AreGiven, given_ty, ArePartsCopied, IsClosed, AreCopied, AreOldVars};

use crate::given::Given;
use sml_tree::bare::Lab;
use sml_types::{Field, Ty, TyForm, Types};
use smlc_base::{NoMemory, Row};
use std::alloc::Global;

/// A copy of a label.
pub fn label(alloc: Global, lab: &Lab) -> Result<Lab, NoMemory>
    ensures { IfOk result (λ copy. copy ≡ lab.now) }
{
    match lab {
        Lab::Num(num) => Ok(Lab::Num(*num)),
        Lab::Text(text) => Ok(Lab::Text(Row::from_vec(Vec::from_slice(alloc, text.items())?))),
    }
}

// Where the copy of a part stands; a part before the first form that is copied stands for itself.
fn moved(from: u32, copies: &[Ty], part: Ty) -> Ty
    ensures { result ≡ moved_ty from copies.now part }
{
    if part.0 < from {
        return part;
    }
    let at = (part.0 - from) as usize;
    if at < copies.len() { copies[at] } else { part }
}

fn moved_fields(
    alloc: Global,
    from: u32,
    copies: &[Ty],
    fields: &[Field],
) -> Result<Row<Field>, NoMemory>
    ensures { IfOk result (λ made. made ≡ moved_fields from copies.now fields.now) }
{
    let mut made = Row::new(alloc);
    'fields: for field in fields {
        made.push(Field {
            lab: label(alloc, &field.lab)?,
            ty: moved(from, copies, field.ty),
        })?;
    }
    Ok(made)
}

fn moved_args(alloc: Global, from: u32, copies: &[Ty], args: &[Ty]) -> Result<Row<Ty>, NoMemory>
    ensures { IfOk result (λ made. made ≡ map (λ arg. moved_ty from copies.now arg) args.now) }
{
    let mut made = Row::new(alloc);
    'each: for arg in args {
        made.push(moved(from, copies, *arg))?;
    }
    Ok(made)
}

fn moved_form(alloc: Global, from: u32, copies: &[Ty], form: &TyForm) -> Result<TyForm, NoMemory>
    ensures { IfOk result (λ made. made ≡ moved_form from copies.now form.now) }
{
    match form {
        TyForm::Var(var) => Ok(TyForm::Var(*var)),
        TyForm::Fields(fields) => Ok(TyForm::Fields(moved_fields(
            alloc,
            from,
            copies,
            fields.items(),
        )?)),
        TyForm::Arrow(arg, result) => Ok(TyForm::Arrow(
            moved(from, copies, *arg),
            moved(from, copies, *result),
        )),
        TyForm::Named(name, args) => {
            Ok(TyForm::Named(*name, moved_args(alloc, from, copies, args.items())?))
        }
    }
}

// What is given for the variable of a number.
fn find_given(given: &[Given], num: u32) -> Option<Ty>
    ensures { result ≡ given_ty (find (λ g. nat_eq g.num num) given.now) }
{
    given
        .iter()
        .find(|item| item.num == num)
        .map(|item| item.ty)
}

// The copy of form `at`, of the copies of its parts.
fn copy_form(
    alloc: Global,
    types: &mut Types,
    from: u32,
    copies: &[Ty],
    given: &[Given],
    at: u32,
) -> Result<Ty, NoMemory>
    requires here { at < length types.old }
    requires given { AreGiven types.old given.now }
    requires parts { (form : TyForm) → slice_get types.old at ≡ Some form → ArePartsCopied types.old given.now from copies.now form }
    ensures ok { IfOk result (λ t. (t.0 < length types.new) × (tree types.new t.0 ≡ inst (given_types types.old given.now) (tree types.old at))) }
    ensures longer { IsLonger types.old types.new }
    ensures vars { AreOldVars types.old types.new }
{
    // Opens the invariant of the types.
    let _ = &types.forms;
    if let TyForm::Var(var) = types.form(Ty(at)) {
        return match find_given(given, var.num) {
            Some(ty) => Ok(ty),
            None => Ok(Ty(at)),
        };
    }
    let form = moved_form(alloc, from, copies, types.form(Ty(at)))?;
    types.push(form)
}

/// Copies the forms from number `from` up to `to`, with the types that are given in the place of variables. Item k of what is answered is the copy of form `from + k`.
pub fn copy(
    alloc: Global,
    types: &mut Types,
    from: u32,
    to: u32,
    given: &[Given],
) -> Result<Vec<Ty>, NoMemory>
    requires order { from ≤ to }
    requires there { to ≤ length types.old }
    requires given { AreGiven types.old given.now }
    requires closed { IsClosed types.old given.now from to }
    ensures ok { IfOk result (λ copies. AreCopied types.old given.now from to types.new copies.items) }
    ensures longer { IsLonger types.old types.new }
    ensures vars { AreOldVars types.old types.new }
{
    // Opens the invariant of the types.
    let _ = &types.forms;
    let mut copies = Vec::new(alloc);
    'forms: for at in from..to {
        let copy = copy_form(alloc, types, from, &copies, given, at)?;
        copies.push(copy)?;
    }
    Ok(copies)
}
