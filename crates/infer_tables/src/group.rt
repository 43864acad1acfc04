//! Rows of type names, from `datatype` bindings.

ghost use Rattle.std.specs.Prelude.{◌≡◌, ◌++◌, IfOk, length, take, [], Some, None};
ghost use Rattle.std.specs.List.{AllByRecursion};
ghost use Rattle.sml_types.specs.Equality.{IsGreatest};
ghost use Rattle.sml_types.specs.Typing.{type_numbers, IsDatBinding};
ghost use Rattle.sml_unify.specs.Steps.{IsLonger};
ghost use Rattle.infer_parts.specs.Copies.{AreOldVars};
ghost use Rattle.infer_tables.specs.Known.{IsScope, IsAnswer};
ghost use Rattle.infer_tables.specs.Group.{headers, AreNext, IsArgumentRow, IsConRowOrNone, AreConRowsOrNone, IsDatRowOrNone, AreDatRowsOrNone};

use crate::bindings::params;
use crate::known::Known;
use crate::meaning::covered;
use infer_parts::equality::equality;
use sml_tree::Bare;
use sml_tree::bare::{ConBinding, DatBinding};
use sml_types::{ConRow, Equality, Tables, TyVar, TypeName, Types};
use smlc_base::{Bytes, NoMemory, Row};
use std::alloc::Global;

fn text(alloc: Global, letters: &Bytes) -> Result<Bytes, NoMemory>
    ensures { IfOk result (λ text. text ≡ letters.now) }
{
    Ok(Row::from_vec(Vec::from_slice(alloc, letters.items())?))
}

// The row of a constructor.
fn con_row(
    alloc: Global,
    bare: &Bare,
    types: &mut Types,
    known: &Known,
    vars: &[TyVar],
    con: &ConBinding,
) -> Result<Option<ConRow>, NoMemory>
    requires scope { IsScope bare.now types.old known.now }
    ensures ok { IfOk result (λ o. IsConRowOrNone bare.now types.new known.now vars.now con.now o) }
    ensures longer { IfOk result (λ _. IsLonger types.old types.new) }
    ensures vars { IfOk result (λ _. AreOldVars types.old types.new) }
{
    let text = text(alloc, &con.text)?;
    let Some(exp) = con.arg else {
        return Ok(Some(ConRow { text, arg: None }));
    };
    match covered(alloc, bare, types, known, vars, exp)? {
        Some(ty) => Ok(Some(ConRow {
            text,
            arg: Some(ty),
        })),
        None => Ok(None),
    }
}

fn con_rows(
    alloc: Global,
    bare: &Bare,
    types: &mut Types,
    known: &Known,
    vars: &[TyVar],
    cons: &[ConBinding],
) -> Result<Option<Row<ConRow>>, NoMemory>
    requires scope { IsScope bare.now types.old known.now }
    ensures ok { IfOk result (λ o. AreConRowsOrNone bare.now types.new known.now vars.now cons.now o) }
    ensures longer { IfOk result (λ _. IsLonger types.old types.new) }
    ensures vars { IfOk result (λ _. AreOldVars types.old types.new) }
{
    let mut rows = Row::new(alloc);
    'cons: for at in 0..cons.len() {
        match con_row(alloc, bare, types, known, vars, &cons[at])? {
            Some(row) => rows.push(row)?,
            None => return Ok(None),
        }
    }
    Ok(Some(rows))
}

// The row of a datatype, which is not yet known to admit equality.
fn dat_row(
    alloc: Global,
    bare: &Bare,
    types: &mut Types,
    known: &Known,
    binding: &DatBinding,
) -> Result<Option<TypeName>, NoMemory>
    requires scope { IsScope bare.now types.old known.now }
    ensures ok { IfOk result (λ o. IsDatRowOrNone bare.now types.new known.now binding.now o) }
    ensures longer { IfOk result (λ _. IsLonger types.old types.new) }
    ensures vars { IfOk result (λ _. AreOldVars types.old types.new) }
{
    let text = text(alloc, &binding.text)?;
    let params = params(alloc, bare, binding.params.items())?;
    match con_rows(
        alloc,
        bare,
        types,
        known,
        params.items(),
        binding.cons.items(),
    )? {
        Some(cons) => Ok(Some(TypeName {
            text,
            params,
            eq: Equality::Never,
            cons,
        })),
        None => Ok(None),
    }
}

fn dat_rows(
    alloc: Global,
    bare: &Bare,
    types: &mut Types,
    known: &Known,
    bindings: &[DatBinding],
) -> Result<Option<Row<TypeName>>, NoMemory>
    requires scope { IsScope bare.now types.old known.now }
    ensures ok { IfOk result (λ o. AreDatRowsOrNone bare.now types.new known.now bindings.now o) }
    ensures longer { IfOk result (λ _. IsLonger types.old types.new) }
    ensures vars { IfOk result (λ _. AreOldVars types.old types.new) }
{
    let mut rows = Row::new(alloc);
    'bindings: for at in 0..bindings.len() {
        match dat_row(alloc, bare, types, known, &bindings[at])? {
            Some(row) => rows.push(row)?,
            None => return Ok(None),
        }
    }
    Ok(Some(rows))
}

// The rows before their constructors are known, behind those that are there.
fn with_headers(
    alloc: Global,
    bare: &Bare,
    known: Known,
    bindings: &[DatBinding],
) -> Result<Known, NoMemory>
    ensures names { IfOk result (λ after. after.tables.names ≡ known.tables.names ++ headers bare.now.tyvars bindings.now) }
    ensures others { IfOk result (λ after. (after.abbreviations ≡ known.abbreviations) × (after.stands ≡ known.stands)) }
    ensures next { IfOk result (λ after. AreNext (length known.tables.names) bindings.now) }
{
    let mut known = known;
    'bindings: for binding in bindings {
        if binding.type_name as usize != known.tables.names.len() {
            return Err(NoMemory);
        }
        let params = params(alloc, bare, binding.params.items())?;
        known.tables.names.push(TypeName {
            text: Row::new(alloc),
            params,
            eq: Equality::Never,
            cons: Row::new(alloc),
        })?;
    }
    Ok(known)
}

// The rows behind the first ones.
fn with_rows(known: Known, first: usize, rows: Row<TypeName>) -> Result<Known, NoMemory>
    ensures names { IfOk result (λ after. after.tables.names ≡ take first known.tables.names ++ rows) }
    ensures others { IfOk result (λ after. (after.abbreviations ≡ known.abbreviations) × (after.stands ≡ known.stands)) }
{
    let mut known = known;
    known.tables.names.truncate(first);
    'rows: for row in rows.into_vec() {
        known.tables.names.push(row)?;
    }
    Ok(known)
}

fn type_numbers(alloc: Global, bindings: &[DatBinding]) -> Result<Vec<u32>, NoMemory>
    ensures { IfOk result (λ numbers. numbers.items ≡ type_numbers bindings.now) }
{
    let mut numbers = Vec::new(alloc);
    'bindings: for binding in bindings {
        numbers.push(binding.type_name)?;
    }
    Ok(numbers)
}

/// The rows of a `datatype` declaration: first with their parameters alone, since constructors may speak of each of them.
pub(crate) fn add_group(
    alloc: Global,
    bare: &Bare,
    types: &mut Types,
    known: Known,
    bindings: &[DatBinding],
) -> Result<Option<Known>, NoMemory>
    requires scope { IsScope bare.now types.old known }
    ensures { IfOk result (λ o. IsAnswer bare.now (λ t. AllByRecursion (IsDatBinding bare.now t) bindings.now × IsGreatest t.forms t.names (type_numbers bindings.now)) (length (type_numbers bindings.now)) types.old known types.new o) }
{
    let first = known.tables.names.len();
    let known = with_headers(alloc, bare, known, bindings)?;
    let Some(rows) = dat_rows(alloc, bare, types, &known, bindings)? else {
        return Ok(None);
    };
    let known = with_rows(known, first, rows)?;
    let numbers = type_numbers(alloc, bindings)?;
    let tables = equality(alloc, types, known.tables, &numbers)?;
    Ok(Some(Known {
        tables,
        abbreviations: known.abbreviations,
        stands: known.stands,
    }))
}
