//! The text of the types of a program's names.

ghost use Rattle.std.specs.Prelude.{◌≡◌, ◌+◌, ◌<◌, ◌^◌, length, map, IfOk};
ghost use Rattle.sml_tree.specs.BareParts.{IsNumbered};
ghost use Rattle.sml_tree.specs.IsBare.{IsBare};
ghost use Rattle.sml_infer.specs.Typing.{IsInferred};
ghost use Rattle.smlc_top.specs.Types.{IsShown, IsTold, IsRefusal};
ghost use Rattle.text_laws.specs.Tells.{shown_names, Tells};

use crate::front::typed_of;
use infer_scopes::pattern_names;
use sml_tree::Bare;
use sml_types::Typed;
use smlc_base::{CompileError, Name, NoMemory, Refusal};
use smlc_jobs::outcome::refused_text;
use std::alloc::Global;
use type_text::lines;

/// What became of files whose types are to be shown.
#[derive(Drop)]
pub enum Shown {
    /// The lines of their names.
    Text(Vec<u8>),
    /// They were refused, with the line that says so.
    Refused(Vec<u8>),
    /// Memory was wanting.
    NoMemory,
}

/// Shows the types of the files of these names.
pub fn show(alloc: Global, names: &[&str], files: &[Vec<u8>]) -> Shown
    requires { length files.now + 1 < 2 ^ 32 }
    ensures { IsShown (map (λ name. name.now) names.now) (map (λ f. f.items) files.now) result }
{
    match typed_of(alloc, files) {
        Ok(typed) => tell(alloc, &typed),
        Err(CompileError::Refused(refusal)) => refuse(alloc, names, refusal),
        Err(CompileError::NoMemory) => Shown::NoMemory,
    }
}

fn tell(alloc: Global, typed: &Typed) -> Shown
    requires bare { IsBare typed.now.bare }
    requires inferred { IsInferred typed.now.bare typed.now }
    ensures { IsTold typed.now.bare result }
{
    match text_of(alloc, typed) {
        Ok(text) => Shown::Text(text),
        Err(_) => Shown::NoMemory,
    }
}

pub(crate) fn refuse(alloc: Global, names: &[&str], refusal: Refusal) -> Shown
    ensures { IsRefusal (map (λ name. name.now) names.now) refusal result }
{
    match refused_text(alloc, names, &refusal) {
        Ok(line) => Shown::Refused(line),
        Err(_) => Shown::NoMemory,
    }
}

// The lines of the names that are shown.
fn text_of(alloc: Global, typed: &Typed) -> Result<Vec<u8>, NoMemory>
    requires bare { IsBare typed.now.bare }
    requires inferred { IsInferred typed.now.bare typed.now }
    ensures { IfOk result (λ text. Tells typed.now.bare text.items) }
{
    // Opens the invariant of the types.
    let _ = typed.types.forms();
    let numbers = numbers_of(alloc, &typed.bare)?;
    let names = names_of(alloc, &numbers)?;
    lines(alloc, typed, &names)
}

// The numbers of the names that are shown, in order.
fn numbers_of(alloc: Global, bare: &Bare) -> Result<Vec<u32>, NoMemory>
    requires { IsNumbered bare.now.nodes }
    ensures { IfOk result (λ v. v.items ≡ shown_names bare.now) }
{
    let mut numbers = Vec::new(alloc);
    'shown: for declaration in bare.shown.items() {
        let bound = pattern_names(alloc, bare, *declaration)?;
        numbers.extend_from_slice(&bound)?;
    }
    Ok(numbers)
}

// The names of these numbers.
fn names_of(alloc: Global, numbers: &[u32]) -> Result<Vec<Name>, NoMemory>
    ensures { IfOk result (λ v. v.items ≡ map (λ x. record { 0 = x }) numbers.now) }
{
    let names = numbers.iter().map(|number| Name(*number)).collect(alloc)?;
    Ok(names)
}
