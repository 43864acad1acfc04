//! The program that a typed tree becomes.

ghost use Rattle.std.specs.Prelude.{◌≡◌, [], ◌∷◌, ◌++◌, IfOk};
ghost use Rattle.sml_tree.specs.IsBare.{IsBare};
ghost use Rattle.lambda_make.specs.Contract.{IsLambdaOf};

use crate::terms::terms;
use lambda_ir::Lambda;
use sml_def::points;
use sml_types::Typed;
use smlc_base::{Bytes, NoMemory, Row};
use std::alloc::Global;

fn copy(alloc: Global, text: &[u8]) -> Result<Bytes, NoMemory>
    ensures { IfOk result (λ r. r ≡ text.now) }
{
    let bytes = Vec::from_slice(alloc, text)?;
    Ok(Row::from_vec(bytes))
}

fn texts(alloc: Global, rows: &[Bytes]) -> Result<Row<Bytes>, NoMemory>
    ensures { IfOk result (λ r. r ≡ rows.now) }
{
    let mut found = Row::new(alloc);
    for row in rows {
        found.push(copy(alloc, row.items())?)?;
    }
    Ok(found)
}

/// The program of `Lambda` that a typed tree becomes: it keeps the tree's run, and is slim. It hands on the tree's sites, string constants and spellings.
///
/// # Errors
///
/// Want of memory.
pub fn lambda(alloc: Global, typed: &Typed) -> Result<Lambda, NoMemory>
    requires { IsBare typed.now.bare }
    ensures { IfOk result (IsLambdaOf typed.now.bare typed.now.tables.names) }
{
    let terms = terms(alloc, typed.bare.nodes.items(), &typed.tables)?;
    let sites = points(alloc, &typed.bare)?;
    let constants = texts(alloc, typed.bare.texts.items())?;
    let spellings = texts(alloc, typed.bare.names.items())?;
    let program = Lambda {
        terms,
        sites,
        texts: constants,
        exns: spellings,
    };
    Ok(program)
}
