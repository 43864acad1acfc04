//! Names, constants and tests in a scope.

ghost use Rattle.std.specs.Prelude.{◌≡◌, IfOk};
ghost use Rattle.convert_laws.specs.Convert.{con_atom, builtin_atom, wanted_of, test_of, tests_of};
ghost use Rattle.convert_scopes.specs.Scopes.{atom_in};

use convert_scopes::Scopes;
use cps_ir::{Atom, Constant, Test, Wanted};
use sml_tree::bare::Con;
use smlc_base::{NoMemory, Path, Primitive, Row, Want};
use std::alloc::Global;

/// A constructor as a value.
pub fn con_atom(scopes: &Scopes, constructor: Con) -> Atom
    ensures { result ≡ con_atom (atom_in scopes.now.table) constructor }
{
    match constructor {
        Con::Data { number, .. } => Atom::Constant(Constant::Tag(number)),
        Con::Ref => Atom::Constant(Constant::Nothing),
        Con::Exn { name, .. } => scopes.get(name),
        Con::Library(exn) => Atom::Constant(Constant::Library(exn)),
    }
}

/// A primitive as a value.
pub fn builtin_atom(primitive: Primitive) -> Atom
    ensures { result ≡ builtin_atom primitive }
{
    match primitive {
        Primitive::StdIn => Atom::Constant(Constant::StdIn),
        _ => Atom::Constant(Constant::Nothing),
    }
}

fn wanted(scopes: &Scopes, want: Want) -> Wanted
    ensures { result ≡ wanted_of (atom_in scopes.now.table) want }
{
    match want {
        Want::Num(z) => Wanted::Num(z),
        Want::Tag(tag) => Wanted::Tag(tag),
        Want::Text(text) => Wanted::Text(text),
        Want::Exn { name, applied } => Wanted::Exn {
            name: scopes.get(name),
            applied,
        },
        Want::Library { exn, applied } => Wanted::Exn {
            name: Atom::Constant(Constant::Library(exn)),
            applied,
        },
    }
}

fn test(alloc: Global, scopes: &Scopes, test: &smlc_base::Test) -> Result<Test, NoMemory>
    ensures { IfOk result (λ t. t ≡ test_of (atom_in scopes.now.table) test.now) }
{
    let path = Path::from_steps(alloc, test.path.steps())?;
    Ok(Test {
        path,
        want: wanted(scopes, test.want),
    })
}

/// The tests of a rule in the present scope.
///
/// # Errors
///
/// Want of memory.
pub fn tests(
    alloc: Global,
    scopes: &Scopes,
    tests: &[smlc_base::Test],
) -> Result<Row<Test>, NoMemory>
    ensures { IfOk result (λ r. r ≡ tests_of (atom_in scopes.now.table) tests.now) }
{
    let mut found = Row::new(alloc);
    for item in tests {
        found.push(test(alloc, scopes, item)?)?;
    }
    Ok(found)
}
