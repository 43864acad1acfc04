//! Which written types cite declared type bindings alone.

ghost use Rattle.std.specs.Prelude.{◌≡◌, IfOk};
ghost use Rattle.std.specs.List.{prefix_len};
ghost use Rattle.sml_infer.specs.Cited.{cites_below};
ghost use Rattle.sml_infer.specs.Going.{CitesBelow};

use infer_state::Declared;
use sml_tree::Bare;
use sml_tree::bare::TypeExp;
use smlc_base::NoMemory;

fn cites_below(count: usize, exp: &TypeExp) -> bool
    ensures { result ≡ cites_below count exp.now }
{
    match exp {
        TypeExp::Abbreviation(number, _) => (*number as usize) < count,
        _ => true,
    }
}

// How many written types at the front cite no type binding, or one below a number.
fn front(count: usize, exps: &[TypeExp]) -> usize
    ensures { result ≡ prefix_len (λ e. cites_below count e) exps.now }
{
    exps.iter()
        .take_while(|exp| cites_below(count, exp))
        .count()
}

/// The number below which the written types cite declared type bindings alone.
///
/// # Errors
///
/// Want of memory, where that number is too great.
pub(crate) fn cited_types(bare: &Bare, declared: &Declared) -> Result<u32, NoMemory>
    ensures { IfOk result (CitesBelow bare.now declared.now) }
{
    let count = front(declared.abbreviations.len(), bare.types.items());
    if count > u32::MAX as usize {
        return Err(NoMemory);
    }
    Ok(count as u32)
}
