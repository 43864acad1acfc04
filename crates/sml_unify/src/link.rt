//! Forms that were found equal, each with one that stands for it.

ghost use Rattle.std.specs.Prelude.{◌≡◌, None, nat_eq, OnOk};
ghost use Rattle.indexmap.specs.IndexMap.{get};
ghost use Rattle.sml_unify.specs.Links.{IsRanked, IsLinked, Leads};

use indexmap::IndexMap;
use sml_types::Ty;
use smlc_base::NoMemory;

/// What stands for a form.
pub(crate) fn linked(links: &IndexMap<u32, Ty>, ty: Ty) -> Option<Ty>
    ensures { result ≡ get nat_eq links.now ty.0 }
{
    match links.get(&ty.0) {
        Some(found) => Some(*found),
        None => None,
    }
}

/// The last of the forms that stand for one another from a form on.
pub(crate) fn find(links: &IndexMap<u32, Ty>, count: usize, ty: Ty) -> Ty
    requires ranked { IsRanked count (get nat_eq links.now) }
    ensures chain { Leads (get nat_eq links.now) ty.0 result.0 }
    ensures last { get nat_eq links.now result.0 ≡ None }
{
    let mut now = ty;
    'chain: for _ in 0..count {
        match linked(links, now) {
            Some(next) => now = next,
            None => return now,
        }
    }
    now
}

/// Puts one form for another.
pub(crate) fn link(links: &mut IndexMap<u32, Ty>, from: Ty, to: Ty) -> Result<(), NoMemory>
    ensures { OnOk result (IsLinked (get nat_eq links.old) from.0 to (get nat_eq links.new)) }
{
    links.insert(from.0, to)?;
    Ok(())
}
