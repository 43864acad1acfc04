//! The variables from which inference starts.

ghost use Rattle.std.specs.Prelude.{◌≡◌, ◌+◌, ◌<◌, ◌^◌, ℕ, IfOk, Some, None, false, true, length, slice_get};
ghost use Rattle.sml_types.specs.declared.types.TyVar.{TyVar};
ghost use Rattle.sml_types.specs.declared.types.TyForm.TheVariants.{Var};
ghost use Rattle.sml_types.specs.TypeExps.{explicit};
ghost use Rattle.sml_unify.specs.Steps.{AreBelow, IsLonger};
ghost use Rattle.infer_state.specs.Variables.{first_node};
ghost use Rattle.infer_tables.specs.Starts.{AreAdded, AreMarked, AreExplicitForms, AreInRow, IsStarted};

use crate::known::Known;
use infer_parts::make_library;
use infer_state::Starts;
use sml_tree::Bare;
use sml_types::{Ty, TyVar, Types};
use smlc_base::{NoMemory, Row};
use std::alloc::Global;

/// A count, if it is a `u32`.
fn narrow(count: usize) -> Result<u32, NoMemory>
    ensures { IfOk result (λ n. n ≡ count) }
{
    if count > u32::MAX as usize {
        return Err(NoMemory);
    }
    Ok(count as u32)
}

fn sum(a: u32, b: u32) -> Result<u32, NoMemory>
    ensures is { IfOk result (λ n. n ≡ a + b) }
    ensures few { IfOk result (λ _. a + b < 2 ^ 32) }
{
    if a > u32::MAX - b {
        return Err(NoMemory);
    }
    Ok(a + b)
}

/// The type variable of a number, marked as it is written.
pub(crate) fn explicit(bare: &Bare, num: u32) -> TyVar
    ensures { result ≡ explicit bare.now.tyvars num }
{
    match bare.tyvars.items().get(num as usize) {
        Some(eq) => TyVar { num, eq: *eq },
        None => TyVar { num, eq: false },
    }
}

// The forms of the explicit type variables, behind the library's.
fn add_explicit(alloc: Global, bare: &Bare, types: &mut Types) -> Result<Row<Ty>, NoMemory>
    requires { (i : ℕ) (v : TyVar) → slice_get types.old i ≡ Some (Var v) → v ≡ record { num = length bare.now.tyvars; eq = false } }
    ensures row { IfOk result (λ stands. AreInRow (length types.old) stands) }
    ensures count { IfOk result (λ stands. length stands ≡ length bare.now.tyvars) }
    ensures forms { IfOk result (λ _. AreExplicitForms bare.now (length types.old) (length bare.now.tyvars) types.new) }
    ensures longer { IfOk result (λ _. IsLonger types.old types.new) }
    ensures below { IfOk result (λ _. AreBelow types.new (first_node bare.now)) }
    ensures marked { IfOk result (λ _. AreMarked bare.now types.new) }
{
    let count = narrow(bare.tyvars.len())?;
    let mut stands = Row::new(alloc);
    'tyvars: for num in 0..count {
        let ty = types.var(explicit(bare, num))?;
        stands.push(ty)?;
    }
    Ok(stands)
}

// Unmarked variables with the numbers from `first` on.
fn add_variables(types: &mut Types, first: u32, count: u32) -> Result<u32, NoMemory>
    requires below { AreBelow types.old first }
    requires few { first + count < 2 ^ 32 }
    ensures added { IfOk result (λ start. AreAdded types.old first count start types.new) }
    ensures few { IfOk result (λ start. start + count < 2 ^ 32) }
{
    let start = narrow(types.forms().len())?;
    sum(start, count)?;
    'variables: for at in 0..count {
        types.var(TyVar {
            num: first + at,
            eq: false,
        })?;
    }
    Ok(start)
}

/// What inference starts from, before the first declaration.
#[derive(Drop)]
pub(crate) struct Started {
    pub types: Types,
    pub known: Known,
    pub starts: Starts,
    pub next: u32,
}

/// The library's type names, and a variable for each explicit type variable, each node and each name.
pub(crate) fn start(alloc: Global, bare: &Bare) -> Result<Started, NoMemory>
    ensures { IfOk result (λ s. IsStarted bare.now s.types s.known s.starts s.next) }
{
    let param = narrow(bare.tyvars.len())?;
    let nodes = narrow(bare.nodes.len())?;
    let names = narrow(bare.names.len())?;
    let first_node = sum(param, 1)?;
    let first_name = sum(first_node, nodes)?;
    let next = sum(first_name, names)?;
    let library = make_library(alloc, param)?;
    let mut types = library.types;
    let explicit = narrow(types.forms().len())?;
    sum(explicit, param)?;
    let stands = add_explicit(alloc, bare, &mut types)?;
    let node_forms = add_variables(&mut types, first_node, nodes)?;
    let name_forms = add_variables(&mut types, first_name, names)?;
    let known = Known {
        tables: library.tables,
        abbreviations: Row::new(alloc),
        stands,
    };
    let starts = Starts {
        explicit,
        nodes: node_forms,
        names: name_forms,
    };
    Ok(Started {
        types,
        known,
        starts,
        next,
    })
}
