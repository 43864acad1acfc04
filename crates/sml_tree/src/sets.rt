//! Sets of numbers, as ascending vectors.

ghost use Rattle.std.specs.Prelude.{◌≡◌, IfOk};
ghost use Rattle.sml_tree.specs.Sets.{has, union, without};

use smlc_base::NoMemory;
use std::alloc::Global;

/// The members of both sets.
pub(crate) fn both(alloc: Global, xs: &[u32], ys: &[u32]) -> Result<Vec<u32>, NoMemory>
    ensures { IfOk result (λ v. v.items ≡ union xs.now ys.now) }
{
    let mut set = Vec::new(alloc);
    let mut i = 0;
    let mut j = 0;
    while i < xs.len() && j < ys.len() {
        let (x, y) = (xs[i], ys[j]);
        if x < y {
            set.push(x)?;
            i += 1;
        } else if y < x {
            set.push(y)?;
            j += 1;
        } else {
            set.push(x)?;
            i += 1;
            j += 1;
        }
    }
    set.extend_from_slice(&xs[i..])?;
    set.extend_from_slice(&ys[j..])?;
    Ok(set)
}

/// The members that are not among the others.
pub(crate) fn remove_all(alloc: Global, set: &[u32], gone: &[u32]) -> Result<Vec<u32>, NoMemory>
    ensures { IfOk result (λ v. v.items ≡ without set.now gone.now) }
{
    let kept = set
        .iter()
        .copied()
        .filter(|x| !gone.contains(x))
        .collect(alloc)?;
    Ok(kept)
}
