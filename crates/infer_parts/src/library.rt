//! The tables before the first declaration: the library's type names, with the types of their constructors.

ghost use Rattle.std.specs.Prelude.{◌≡◌, ◌++◌, ◌∷◌, [], IfOk, OnOk, Some, None, false};
ghost use Rattle.sml_types.specs.Library.{BeginsWithLibrary};
ghost use Rattle.infer_parts.specs.LibraryRows.{named_row, con_row, bool_row, list_row, option_row, order_row, ref_row, library_forms, library_rows};

use sml_tree::bare::Lab;
use sml_types::{ConRow, Equality, Field, Tables, Ty, TyVar, TypeName, Types};
use smlc_base::{Bytes, NoMemory, Row};
use std::alloc::Global;

fn text(alloc: Global, letters: &[u8]) -> Result<Bytes, NoMemory>
    ensures { IfOk result (λ text. text ≡ letters.now) }
{
    Ok(Row::from_vec(Vec::from_slice(alloc, letters)?))
}

fn add_con(
    alloc: Global,
    cons: &mut Row<ConRow>,
    letters: &[u8],
    arg: Option<Ty>,
) -> Result<(), NoMemory>
    ensures { OnOk result (cons.new ≡ cons.old ++ con_row letters.now arg ∷ []) }
{
    cons.push(ConRow {
        text: text(alloc, letters)?,
        arg,
    })
}

fn add_name(
    alloc: Global,
    names: &mut Row<TypeName>,
    letters: &[u8],
    params: Row<TyVar>,
    eq: Equality,
    cons: Row<ConRow>,
) -> Result<(), NoMemory>
    ensures { OnOk result (names.new ≡ names.old ++ named_row letters.now params eq cons ∷ []) }
{
    names.push(TypeName {
        text: text(alloc, letters)?,
        params,
        eq,
        cons,
    })
}

fn add_plain(
    alloc: Global,
    names: &mut Row<TypeName>,
    letters: &[u8],
    eq: Equality,
) -> Result<(), NoMemory>
    ensures { OnOk result (names.new ≡ names.old ++ named_row letters.now [] eq [] ∷ []) }
{
    add_name(alloc, names, letters, Row::new(alloc), eq, Row::new(alloc))
}

fn one(alloc: Global, var: TyVar) -> Result<Row<TyVar>, NoMemory>
    ensures { IfOk result (λ vars. vars ≡ var ∷ []) }
{
    let mut vars = Row::new(alloc);
    vars.push(var)?;
    Ok(vars)
}

fn two_constants(alloc: Global, first: &[u8], second: &[u8]) -> Result<Row<ConRow>, NoMemory>
    ensures { IfOk result (λ cons. cons ≡ con_row first.now None ∷ con_row second.now None ∷ []) }
{
    let mut cons = Row::new(alloc);
    add_con(alloc, &mut cons, first, None)?;
    add_con(alloc, &mut cons, second, None)?;
    Ok(cons)
}

fn add_bool(alloc: Global, names: &mut Row<TypeName>) -> Result<(), NoMemory>
    ensures { OnOk result (names.new ≡ names.old ++ bool_row ∷ []) }
{
    let cons = two_constants(alloc, b"false", b"true")?;
    add_name(
        alloc,
        names,
        b"bool",
        Row::new(alloc),
        Equality::Parts,
        cons,
    )
}

fn add_list(alloc: Global, names: &mut Row<TypeName>, var: TyVar) -> Result<(), NoMemory>
    ensures { OnOk result (names.new ≡ names.old ++ list_row var ∷ []) }
{
    let mut cons = Row::new(alloc);
    add_con(alloc, &mut cons, b"nil", None)?;
    add_con(alloc, &mut cons, b"::", Some(Ty(2)))?;
    add_name(
        alloc,
        names,
        b"list",
        one(alloc, var)?,
        Equality::Parts,
        cons,
    )
}

fn add_option(alloc: Global, names: &mut Row<TypeName>, var: TyVar) -> Result<(), NoMemory>
    ensures { OnOk result (names.new ≡ names.old ++ option_row var ∷ []) }
{
    let mut cons = Row::new(alloc);
    add_con(alloc, &mut cons, b"NONE", None)?;
    add_con(alloc, &mut cons, b"SOME", Some(Ty(0)))?;
    add_name(
        alloc,
        names,
        b"option",
        one(alloc, var)?,
        Equality::Parts,
        cons,
    )
}

fn add_order(alloc: Global, names: &mut Row<TypeName>) -> Result<(), NoMemory>
    ensures { OnOk result (names.new ≡ names.old ++ order_row ∷ []) }
{
    let mut cons = two_constants(alloc, b"LESS", b"EQUAL")?;
    add_con(alloc, &mut cons, b"GREATER", None)?;
    add_name(
        alloc,
        names,
        b"order",
        Row::new(alloc),
        Equality::Parts,
        cons,
    )
}

fn add_ref(alloc: Global, names: &mut Row<TypeName>, var: TyVar) -> Result<(), NoMemory>
    ensures { OnOk result (names.new ≡ names.old ++ ref_row var ∷ []) }
{
    let mut cons = Row::new(alloc);
    add_con(alloc, &mut cons, b"ref", Some(Ty(0)))?;
    add_name(
        alloc,
        names,
        b"ref",
        one(alloc, var)?,
        Equality::Always,
        cons,
    )
}

/// The library's type names, with the parameter `var`, over `forms`.
fn rows(alloc: Global, var: TyVar) -> Result<Row<TypeName>, NoMemory>
    ensures { IfOk result (λ names. names ≡ library_rows var) }
{
    let mut names = Row::new(alloc);
    add_plain(alloc, &mut names, b"int", Equality::Parts)?;
    add_plain(alloc, &mut names, b"char", Equality::Parts)?;
    add_plain(alloc, &mut names, b"string", Equality::Parts)?;
    add_plain(alloc, &mut names, b"exn", Equality::Never)?;
    add_bool(alloc, &mut names)?;
    add_list(alloc, &mut names, var)?;
    add_option(alloc, &mut names, var)?;
    add_order(alloc, &mut names)?;
    add_ref(alloc, &mut names, var)?;
    add_plain(alloc, &mut names, b"TextIO.instream", Equality::Never)?;
    Ok(names)
}

/// The forms of the parameter, of a list of it, and of the argument of `::`.
fn forms(alloc: Global, var: TyVar) -> Result<Types, NoMemory>
    ensures { IfOk result (λ types. types ≡ library_forms var) }
{
    let mut types = Types::new(alloc);
    let param = types.var(var)?;
    let mut args = Row::new(alloc);
    args.push(param)?;
    let list = types.named(5, args)?;
    let mut fields = Row::new(alloc);
    fields.push(Field {
        lab: Lab::Num(1),
        ty: param,
    })?;
    fields.push(Field {
        lab: Lab::Num(2),
        ty: list,
    })?;
    types.fields(fields)?;
    Ok(types)
}

/// Types and tables before the first declaration.
#[derive(Drop)]
pub struct LibraryTypes {
    pub types: Types,
    pub tables: Tables,
}

/// The library's type names; the parameter of those that have one is the type variable of number `num`.
pub fn make_library(alloc: Global, num: u32) -> Result<LibraryTypes, NoMemory>
    ensures forms { IfOk result (λ library. library.types ≡ library_forms (record { num = num; eq = false })) }
    ensures rows { IfOk result (λ library. library.tables.names ≡ library_rows (record { num = num; eq = false })) }
    ensures is { IfOk result (λ library. BeginsWithLibrary library.types library.tables.names) }
{
    let var = TyVar { num, eq: false };
    Ok(LibraryTypes {
        types: forms(alloc, var)?,
        tables: Tables {
            names: rows(alloc, var)?,
        },
    })
}
