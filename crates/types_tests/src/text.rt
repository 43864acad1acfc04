//! Lines, as the language shows them.

ghost use Rattle.std.specs.Prelude.{◌≡◌, length, IfOk};

use sml_tree::bare::{Bare, Lab};
use sml_types::{Equality, Field, NameScheme, Scheme, Tables, Ty, TyVar, TypeName, Typed, Types};
use smlc_base::{Bytes, Name, NoMemory, Row};
use std::alloc::Global;
use std::test::Fail;
use type_text::lines;

fn bytes(alloc: Global, text: &[u8]) -> Result<Bytes, NoMemory> {
    Ok(Row::from_vec(Vec::from_slice(alloc, text)?))
}

fn bare(alloc: Global) -> Result<Bare, NoMemory>
    ensures { IfOk result (λ bare. length bare.names ≡ 3) }
{
    let mut names = Row::new(alloc);
    names.push(bytes(alloc, b"f")?)?;
    names.push(bytes(alloc, b"r")?)?;
    names.push(bytes(alloc, b"t")?)?;
    Ok(Bare {
        nodes: Row::new(alloc),
        places: Row::new(alloc),
        decs: Row::new(alloc),
        shown: Row::new(alloc),
        types: Row::new(alloc),
        tyvars: Row::new(alloc),
        names,
        texts: Row::new(alloc),
        width: 0,
    })
}

fn tables(alloc: Global) -> Result<Tables, NoMemory> {
    let mut names = Row::new(alloc);
    names.push(TypeName {
        text: bytes(alloc, b"list")?,
        params: Row::new(alloc),
        eq: Equality::Parts,
        cons: Row::new(alloc),
    })?;
    Ok(Tables { names })
}

fn scheme(alloc: Global, number: u32, vars: &[TyVar], body: Ty) -> Result<NameScheme, NoMemory>
    ensures { IfOk result (λ scheme. scheme.name.0 ≡ number) }
{
    Ok(NameScheme {
        name: Name(number),
        scheme: Scheme {
            vars: Row::from_vec(Vec::from_slice(alloc, vars)?),
            body,
        },
    })
}

// The types of f, r and t, in the one variable.
fn types(alloc: Global, var: TyVar) -> Result<(Types, Ty, Ty, Ty), NoMemory> {
    let mut types = Types::new(alloc);
    let a = types.var(var)?;
    let same = types.arrow(a, a)?;
    let function = types.arrow(same, a)?;
    let list = types.named(0, Row::from_vec(Vec::from_slice(alloc, &[a])?))?;
    let unit = types.fields(Row::new(alloc))?;
    let mut fields = Row::new(alloc);
    fields.push(Field {
        lab: Lab::Num(1),
        ty: same,
    })?;
    fields.push(Field {
        lab: Lab::Num(2),
        ty: unit,
    })?;
    let tuple = types.fields(fields)?;
    Ok((types, function, list, tuple))
}

fn typed(alloc: Global) -> Result<Typed, NoMemory>
    ensures { IfOk result (λ typed. length typed.schemes ≡ 3) }
{
    let var = TyVar { num: 7, eq: true };
    let (types, function, list, tuple) = types(alloc, var)?;
    let mut schemes = Row::new(alloc);
    schemes.push(scheme(alloc, 0, &[var], function)?)?;
    schemes.push(scheme(alloc, 1, &[], list)?)?;
    schemes.push(scheme(alloc, 2, &[], tuple)?)?;
    let bare = bare(alloc)?;
    let tables = tables(alloc)?;
    Ok(Typed {
        bare,
        types,
        tables,
        schemes,
    })
}

#[test]
fn shows_each(rt: HostRuntime) -> Result<(), Fail> {
    let typed = typed(rt.alloc())?;
    let text = lines(rt.alloc(), &typed, &[Name(2), Name(0), Name(1)])?;
    let shown = b"val t : ('_a -> '_a) * unit\nval f : (''a -> ''a) -> ''a\nval r : '_a list\n";
    assert_eq!(rt; text.as_slice(), shown.as_slice());
    Ok(())
}
