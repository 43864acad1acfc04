//! Runs of types by number that have all their parts in them.

ghost use Rattle.std.specs.Prelude.{◌≡◌, ◌<◌, ◌≤◌, length, IfOk};
ghost use Rattle.sml_types.specs.Forms.{parts_of};
ghost use Rattle.infer_parts.specs.Segments.{exp_parts, least_of, IsSegment, IsWrittenSegment};

use sml_tree::bare::TypeExp;
use sml_types::TyForm;
use smlc_base::NoMemory;
use std::alloc::Global;

// The numbers of a form's parts, in order.
fn form_parts(alloc: Global, form: &TyForm) -> Result<Vec<u32>, NoMemory>
    ensures { IfOk result (λ v. v.items ≡ parts_of form.now) }
{
    match form {
        TyForm::Var(_) => Ok(Vec::new(alloc)),
        TyForm::Fields(fields) => {
            let found = fields.items().iter().map(|f| f.ty.0).collect(alloc)?;
            Ok(found)
        }
        TyForm::Arrow(a, b) => {
            let mut found = Vec::new(alloc);
            found.push(a.0)?;
            found.push(b.0)?;
            Ok(found)
        }
        TyForm::Named(_, args) => {
            let found = args.items().iter().map(|a| a.0).collect(alloc)?;
            Ok(found)
        }
    }
}

/// The numbers of a written type's parts, in order.
pub(crate) fn exp_parts(alloc: Global, exp: &TypeExp) -> Result<Vec<u32>, NoMemory>
    ensures { IfOk result (λ v. v.items ≡ exp_parts exp.now) }
{
    match exp {
        TypeExp::Var(_) => Ok(Vec::new(alloc)),
        TypeExp::Record(fields) => {
            let found = fields.items().iter().map(|f| f.ty).collect(alloc)?;
            Ok(found)
        }
        TypeExp::Arrow(a, b) => {
            let mut found = Vec::new(alloc);
            found.push(*a)?;
            found.push(*b)?;
            Ok(found)
        }
        TypeExp::Named(_, args) => Ok(Vec::from_slice(alloc, args.items())?),
        TypeExp::Abbreviation(_, args) => Ok(Vec::from_slice(alloc, args.items())?),
        TypeExp::UnitOf(args) => Ok(Vec::from_slice(alloc, args.items())?),
    }
}

fn least(parts: &[u32], low: u32) -> u32
    ensures { result ≡ least_of low parts.now }
{
    let mut least = low;
    'parts: for part in parts {
        if *part < least {
            least = *part;
        }
    }
    least
}

/// A number that is at most `low`, such that the forms from it up to `last` have no part before it.
pub(crate) fn first_form(
    alloc: Global,
    forms: &[TyForm],
    low: u32,
    last: u32,
) -> Result<u32, NoMemory>
    requires order { low ≤ last }
    requires there { last < length forms.now }
    ensures below { IfOk result (λ first. first ≤ low) }
    ensures closed { IfOk result (λ first. IsSegment forms.now first last) }
{
    let mut first = low;
    let mut at = last as usize + 1;
    'forms: while at > first as usize {
        at -= 1;
        let parts = form_parts(alloc, &forms[at])?;
        first = least(&parts, first);
    }
    Ok(first)
}

/// A number that is at most `last`, such that the written types from it up to `last` have no part before it.
pub(crate) fn first_exp(alloc: Global, exps: &[TypeExp], last: u32) -> Result<u32, NoMemory>
    requires there { last < length exps.now }
    ensures below { IfOk result (λ first. first ≤ last) }
    ensures closed { IfOk result (λ first. IsWrittenSegment exps.now first last) }
{
    let mut first = last;
    let mut at = last as usize + 1;
    'exps: while at > first as usize {
        at -= 1;
        let parts = exp_parts(alloc, &exps[at])?;
        first = least(&parts, first);
    }
    Ok(first)
}
