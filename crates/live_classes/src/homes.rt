//! Where variables are bound.

ghost use Rattle.std.specs.Prelude.{◌≡◌, ◌<◌, IfOk, OnOk, None, replicate, length, slice_set, [], ◌∷◌};
ghost use Rattle.sml_tree.specs.Sets.{union, union_over};
ghost use Rattle.cps_free.specs.Same.{AreSame};
ghost use Rattle.live_classes.specs.Keys.{home_at, AreHomes};

use cps_survey::Binding;
use smlc_base::NoMemory;
use std::alloc::Global;
use std::collections::BTreeSet;

/// The home of a variable, by the table.
pub(crate) fn home(homes: &[Option<u32>], x: u32) -> Option<u32>
    ensures { result ≡ home_at homes.now x }
{
    match homes.get(x as usize) {
        Some(home) => *home,
        None => None,
    }
}

fn no_homes(alloc: Global, n: usize) -> Result<Vec<Option<u32>>, NoMemory>
    ensures { IfOk result (λ v. v.items ≡ replicate n None) }
{
    let mut homes = Vec::new(alloc);
    for _ in 0..n {
        homes.push(None)?;
    }
    Ok(homes)
}

fn set_home(homes: &mut Vec<Option<u32>>, binding: &Binding)
    ensures { homes.new.items ≡ slice_set homes.old.items binding.now.var binding.now.home }
{
    if let Some(home) = homes.get_mut(binding.var() as usize) {
        *home = binding.home();
    }
}

/// Where n variables are bound, by number.
pub(crate) fn homes(
    alloc: Global,
    bindings: &[Binding],
    n: usize,
) -> Result<Vec<Option<u32>>, NoMemory>
    ensures { IfOk result (λ v. AreHomes bindings.now n v.items) }
{
    let mut homes = no_homes(alloc, n)?;
    let mut i = bindings.len();
    while i > 0 {
        i -= 1;
        set_home(&mut homes, &bindings[i]);
    }
    Ok(homes)
}

fn insert(set: &mut BTreeSet<u32>, x: u32) -> Result<(), NoMemory>
    ensures { OnOk result (AreSame set.new.keys (union (x ∷ []) set.old.keys)) }
{
    set.insert(x)?;
    Ok(())
}

/// The variables that are bound, in ascending order.
pub(crate) fn variables(alloc: Global, bindings: &[Binding]) -> Result<Vec<u32>, NoMemory>
    ensures { IfOk result (λ v. v.items ≡ union_over (λ b. b.var ∷ []) bindings.now) }
{
    let mut set = BTreeSet::new(alloc);
    for binding in bindings {
        insert(&mut set, binding.var())?;
    }
    let _ = set.len();
    let members = set.iter().copied().collect(alloc)?;
    Ok(members)
}
