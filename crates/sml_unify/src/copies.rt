//! Copies of forms, with renamed variables.

ghost use Rattle.std.specs.Prelude.{◌≡◌, ◌<◌, [], nat_eq, length, map, slice_get, IfOk, OnOk, OnErr};
ghost use Rattle.std.specs.List.{find};
ghost use Rattle.indexmap.specs.IndexMap.{get};
ghost use Rattle.sml_unify.specs.Orders.{AreReady};
ghost use Rattle.sml_unify.specs.Resolve.{led_to, renamed_as, AreRenames};
ghost use Rattle.sml_unify.specs.Copies.{copied_ty, copied_fields, copied_form, AreThere, HavePartsCopies, IsMade, IsCopyOf, IsGrown, IsAdded, AreCopied};

use crate::link::{link, linked};
use crate::order::Headed;
use crate::resolve::Rename;
use indexmap::IndexMap;
use sml_tree::bare::Lab;
use sml_types::{Field, Ty, TyForm, TyVar, Types};
use smlc_base::{NoMemory, Row};
use std::alloc::Global;

fn label(alloc: Global, lab: &Lab) -> Result<Lab, NoMemory>
    ensures { IfOk result (λ copy. copy ≡ lab.now) }
{
    match lab {
        Lab::Num(num) => Ok(Lab::Num(*num)),
        Lab::Text(text) => Ok(Lab::Text(Row::from_vec(Vec::from_slice(alloc, text.items())?))),
    }
}

// The copy of a part, or itself.
fn copied(copies: &IndexMap<u32, Ty>, part: Ty) -> Ty
    ensures { result ≡ copied_ty (get nat_eq copies.now) part }
{
    match linked(copies, part) {
        Some(copy) => copy,
        None => part,
    }
}

fn copied_fields(
    alloc: Global,
    copies: &IndexMap<u32, Ty>,
    fields: &[Field],
) -> Result<Row<Field>, NoMemory>
    ensures { IfOk result (λ made. made ≡ copied_fields (get nat_eq copies.now) fields.now) }
{
    let mut made = Row::new(alloc);
    'fields: for field in fields {
        made.push(Field {
            lab: label(alloc, &field.lab)?,
            ty: copied(copies, field.ty),
        })?;
    }
    Ok(made)
}

fn copied_args(alloc: Global, copies: &IndexMap<u32, Ty>, args: &[Ty]) -> Result<Row<Ty>, NoMemory>
    ensures { IfOk result (λ made. made ≡ map (λ arg. copied_ty (get nat_eq copies.now) arg) args.now) }
{
    let mut made = Row::new(alloc);
    'each: for arg in args {
        made.push(copied(copies, *arg))?;
    }
    Ok(made)
}

// What the first rename of a number leads to.
fn rename_of(renames: &[Rename], num: u32) -> Option<TyVar>
    ensures { result ≡ led_to (find (λ r. nat_eq r.from num) renames.now) }
{
    renames
        .iter()
        .find(|rename| rename.from == num)
        .map(|rename| rename.to)
}

// What stands for a variable.
fn renamed(renames: &[Rename], var: TyVar) -> TyVar
    ensures { result ≡ renamed_as var (led_to (find (λ r. nat_eq r.from var.num) renames.now)) }
{
    match rename_of(renames, var.num) {
        Some(to) => to,
        None => var,
    }
}

// A form of the copies of its parts.
fn copied_form(
    alloc: Global,
    copies: &IndexMap<u32, Ty>,
    renames: &[Rename],
    form: &TyForm,
) -> Result<TyForm, NoMemory>
    ensures { IfOk result (λ made. made ≡ copied_form (get nat_eq copies.now) renames.now form.now) }
{
    match form {
        TyForm::Var(var) => Ok(TyForm::Var(renamed(renames, *var))),
        TyForm::Fields(fields) => Ok(TyForm::Fields(copied_fields(alloc, copies, fields.items())?)),
        TyForm::Arrow(arg, result) => Ok(TyForm::Arrow(
            copied(copies, *arg),
            copied(copies, *result),
        )),
        TyForm::Named(name, args) => {
            Ok(TyForm::Named(*name, copied_args(alloc, copies, args.items())?))
        }
    }
}

// Puts the copy of a form last.
fn make(
    alloc: Global,
    types: &mut Types,
    copies: &IndexMap<u32, Ty>,
    renames: &[Rename],
    at: Ty,
) -> Result<Ty, NoMemory>
    requires here { at.0 < length types.old }
    requires there { AreThere types.old (get nat_eq copies.now) }
    requires renames { AreRenames types.old renames.now }
    ensures ok { IfOk result (λ t. IsMade types.old (get nat_eq copies.now) renames.now at.0 types.new t) }
    ensures err { OnErr result (types.new ≡ types.old) }
{
    // Opens the invariant of the types.
    let _ = &types.forms;
    let form = copied_form(alloc, copies, renames, types.form(at))?;
    types.push(form)
}

// The copy of a form that is there, or a new one.
fn copy_of(
    alloc: Global,
    types: &mut Types,
    copies: &IndexMap<u32, Ty>,
    renames: &[Rename],
    at: Ty,
) -> Result<Ty, NoMemory>
    requires here { at.0 < length types.old }
    requires there { AreThere types.old (get nat_eq copies.now) }
    requires renames { AreRenames types.old renames.now }
    ensures ok { IfOk result (λ t. IsCopyOf types.old (get nat_eq copies.now) renames.now at.0 types.new t) }
    ensures err { OnErr result (types.new ≡ types.old) }
{
    match linked(copies, at) {
        Some(copy) => Ok(copy),
        None => make(alloc, types, copies, renames, at),
    }
}

// Notes the copy of one more type.
fn add_copy(
    alloc: Global,
    types: &mut Types,
    copies: &mut IndexMap<u32, Ty>,
    renames: &[Rename],
    entry: Headed,
) -> Result<(), NoMemory>
    requires here { entry.head.0 < length types.old }
    requires there { AreThere types.old (get nat_eq copies.old) }
    requires parts { HavePartsCopies types.old (get nat_eq copies.old) entry.head.0 }
    requires renames { AreRenames types.old renames.now }
    ensures ok { OnOk result (IsAdded renames.now types.old (get nat_eq copies.old) entry types.new (get nat_eq copies.new)) }
    ensures grown { IsGrown renames.now types.old types.new }
{
    let copy = copy_of(alloc, types, copies, renames, entry.head)?;
    link(copies, entry.head, copy)?;
    link(copies, entry.ty, copy)
}

/// Copies of all types of an order, by number.
pub(crate) fn copy_all(
    alloc: Global,
    types: &mut Types,
    renames: &[Rename],
    order: &[Headed],
) -> Result<IndexMap<u32, Ty>, NoMemory>
    requires ready { AreReady types.old [] order.now }
    requires renames { AreRenames types.old renames.now }
    ensures ok { IfOk result (λ copies. AreCopied renames.now types.old order.now types.new (get nat_eq copies)) }
    ensures grown { IsGrown renames.now types.old types.new }
{
    let mut copies = IndexMap::new(alloc);
    'each: for entry in order {
        add_copy(alloc, types, &mut copies, renames, *entry)?;
    }
    Ok(copies)
}
