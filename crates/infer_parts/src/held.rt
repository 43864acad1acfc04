//! What holds of a type, from the parts up: whether these variables alone stand in it, and whether it admits equality.

ghost use Rattle.std.specs.Prelude.{◌≡◌, ◌<◌, ◌≤◌, ◌+◌, ◌↔◌, IsTrue, length, IfOk};
ghost use Rattle.std.specs.List.{AllByRecursion, list_all};
ghost use Rattle.sml_types.specs.Tree.{name_equality, by_equality};
ghost use Rattle.sml_types.specs.Forms.{tree, parts_of, AreForms};
ghost use Rattle.sml_types.specs.Typing.{Covers};
ghost use Rattle.infer_parts.specs.Segments.{IsSegment};
ghost use Rattle.infer_parts.specs.Held.{held_at, all_held, equality_at, covers_form, admits_form, AreHeld, is_var, among, in_any, any_var, by_names};

use crate::segment::first_form;
use sml_types::{Equality, Field, Ty, TyForm, TyVar, TypeName, Types};
use smlc_base::NoMemory;
use std::alloc::Global;

pub(crate) fn held_at(first: u32, table: &[bool], ty: Ty) -> bool
    requires { first ≤ ty.0 }
    ensures { result ≡ held_at first table.now ty.0 }
{
    let at = (ty.0 - first) as usize;
    at < table.len() && table[at]
}

fn all_held(first: u32, table: &[bool], tys: &[Ty]) -> bool
    requires { AllByRecursion (λ t. first ≤ t.0) tys.now }
    ensures { result ≡ all_held first table.now tys.now }
{
    'each: for ty in tys {
        if !held_at(first, table, *ty) {
            return false;
        }
    }
    true
}

fn fields_held(first: u32, table: &[bool], fields: &[Field]) -> bool
    requires { AllByRecursion (λ f. first ≤ f.ty.0) fields.now }
    ensures { result ≡ list_all (λ f. held_at first table.now f.ty.0) fields.now }
{
    'each: for field in fields {
        if !held_at(first, table, field.ty) {
            return false;
        }
    }
    true
}

fn is_var(var: TyVar, other: TyVar) -> bool
    ensures { result ≡ is_var var other }
{
    var.num == other.num && (if var.eq { other.eq } else { !other.eq })
}

fn among(vars: &[TyVar], var: TyVar) -> bool
    ensures { result ≡ among vars.now var }
{
    vars.iter().any(|other| is_var(var, *other))
}

fn covers_form(first: u32, table: &[bool], vars: &[TyVar], form: &TyForm) -> bool
    requires { AllByRecursion (λ c. first ≤ c) (parts_of form.now) }
    ensures { result ≡ covers_form first table.now vars.now form.now }
{
    match form {
        TyForm::Var(var) => among(vars, *var),
        TyForm::Fields(fields) => fields_held(first, table, fields.items()),
        TyForm::Arrow(arg, result) => {
            held_at(first, table, *arg) && held_at(first, table, *result)
        }
        TyForm::Named(_, args) => all_held(first, table, args.items()),
    }
}

// How a type name admits equality.
fn equality_at(names: &[TypeName], number: u32) -> Equality
    ensures { result ≡ equality_at names.now number }
{
    match names.get(number as usize) {
        Some(name) => name.eq,
        None => Equality::Never,
    }
}

fn admits_form(first: u32, table: &[bool], names: &[TypeName], form: &TyForm) -> bool
    requires { AllByRecursion (λ c. first ≤ c) (parts_of form.now) }
    ensures { result ≡ admits_form first table.now names.now form.now }
{
    match form {
        TyForm::Var(_) => true,
        TyForm::Fields(fields) => fields_held(first, table, fields.items()),
        TyForm::Arrow(_, _) => false,
        TyForm::Named(number, args) => match equality_at(names, *number) {
            Equality::Never => false,
            Equality::Always => true,
            Equality::Parts => all_held(first, table, args.items()),
        },
    }
}

/// Whether these variables alone stand in a type.
pub fn covers(alloc: Global, types: &Types, vars: &[TyVar], ty: Ty) -> Result<bool, NoMemory>
    requires { ty.0 < length types.now }
    ensures { IfOk result (λ covers. IsTrue covers ↔ Covers vars.now (tree types.now ty.0)) }
{
    let forms = types.forms();
    let first = first_form(alloc, forms, ty.0, ty.0)?;
    let mut table = Vec::new(alloc);
    'forms: for at in first as usize..ty.0 as usize + 1 {
        let now = covers_form(first, &table, vars, &forms[at]);
        table.push(now)?;
    }
    Ok(held_at(first, &table, ty))
}

/// For each type from number `first` on whether it admits equality where its variables do. All parts of these types are among them.
pub(crate) fn admitting(
    alloc: Global,
    types: &Types,
    names: &[TypeName],
    first: u32,
) -> Result<Vec<bool>, NoMemory>
    requires there { first ≤ length types.now }
    requires segment { IsSegment types.now first (length types.now) }
    ensures { IfOk result (λ table. AreHeld any_var (by_names names.now) types.now first (length types.now) table.items) }
{
    let forms = types.forms();
    let mut table = Vec::new(alloc);
    'forms: for at in first as usize..forms.len() {
        let now = admits_form(first, &table, names, &forms[at]);
        table.push(now)?;
    }
    Ok(table)
}
