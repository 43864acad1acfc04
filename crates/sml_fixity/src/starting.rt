//! The fixity that a program starts with.

ghost use Rattle.std.specs.Prelude.{◌≡◌, ◌≤◌, ◌<◌, ◌+◌, ◌^◌, ◌++◌, ◌∷◌, [], ℕ, bytes_eq, length, IfOk, OnOk};
ghost use Rattle.std.specs.List.{position_from};
ghost use Rattle.sml_fixity.specs.Starting.{number_of as number_spec, operator, starting as starting_spec};

use crate::scope::Scope;
use sml_tree::Status;
use smlc_base::{Name, Names, NoMemory};
use std::alloc::Global;

/// There is no memory for more names than this.
const MOST: usize = 4294967000;

fn position(names: &Names, text: &[u8]) -> Option<u32>
    requires { length names.now ≤ 4294967000 }
    ensures { result ≡ position_from (λ t. bytes_eq t text.now) 0 names.now }
{
    for i in 0..names.len() {
        if names.text(Name(i as u32)) == text {
            return Some(i as u32);
        }
    }
    None
}

fn number_of(names: &Names, behind: u32, text: &[u8]) -> u32
    requires few { length names.now ≤ 4294967000 }
    requires near { behind < 100 }
    ensures { result ≡ number_spec names.now behind text.now }
{
    match position(names, text) {
        Some(number) => number,
        None => names.len() as u32 + behind,
    }
}

// Gives the identifier of a text infix status.
fn add(
    scope: &mut Scope,
    names: &Names,
    behind: u32,
    text: &[u8],
    level: u8,
    right: bool,
) -> Result<(), NoMemory>
    requires few { length names.now ≤ 4294967000 }
    requires near { behind < 100 }
    ensures { OnOk result (scope.new ≡ scope.old ++ operator names.now behind text.now level right ∷ []) }
{
    let name = Name(number_of(names, behind, text));
    scope.direct(name, Status::Infix(level, right))
}

/// The directives that are in force before the first token.
pub fn starting(alloc: Global, names: &Names) -> Result<Scope, NoMemory>
    ensures { IfOk result (λ scope. scope ≡ starting_spec names.now) }
{
    if names.len() > MOST {
        return Err(NoMemory);
    }
    let mut scope = Scope::new(alloc);
    add(&mut scope, names, 0, b"*".as_slice(), 7, false)?;
    add(&mut scope, names, 1, b"/".as_slice(), 7, false)?;
    add(&mut scope, names, 2, b"div".as_slice(), 7, false)?;
    add(&mut scope, names, 3, b"mod".as_slice(), 7, false)?;
    add(&mut scope, names, 4, b"+".as_slice(), 6, false)?;
    add(&mut scope, names, 5, b"-".as_slice(), 6, false)?;
    add(&mut scope, names, 6, b"^".as_slice(), 6, false)?;
    add(&mut scope, names, 7, b"::".as_slice(), 5, true)?;
    add(&mut scope, names, 8, b"@".as_slice(), 5, true)?;
    add(&mut scope, names, 9, b"<>".as_slice(), 4, false)?;
    add(&mut scope, names, 10, b">".as_slice(), 4, false)?;
    add(&mut scope, names, 11, b">=".as_slice(), 4, false)?;
    add(&mut scope, names, 12, b"<".as_slice(), 4, false)?;
    add(&mut scope, names, 13, b"<=".as_slice(), 4, false)?;
    add(&mut scope, names, 14, b":=".as_slice(), 3, false)?;
    add(&mut scope, names, 15, b"o".as_slice(), 3, false)?;
    add(&mut scope, names, 16, b"before".as_slice(), 0, false)?;
    Ok(scope)
}
