//! What inference is before the first node.

ghost use Rattle.std.specs.Prelude.{IfOk};
ghost use Rattle.sml_infer.specs.Begun.{AreNone, IsBegun};

use crate::inference::Inference;
use infer_scopes::Scopes;
use infer_state::Unknowns;
use sml_tree::Bare;
use smlc_base::NoMemory;
use std::alloc::Global;

// So many places with nothing in them.
fn nothing<T: Drop>(alloc: Global, count: usize) -> Result<Vec<Option<T>>, NoMemory>
    ensures { IfOk result (λ places. AreNone count places.items) }
{
    let mut places = Vec::new(alloc);
    'places: for _ in 0..count {
        places.push(None)?;
    }
    Ok(places)
}

/// Inference of the nodes below `count`, before the first one.
pub(crate) fn begin(
    alloc: Global,
    bare: &Bare,
    count: u32,
    unknowns: Unknowns,
) -> Result<Inference, NoMemory>
    ensures { IfOk result (IsBegun bare.now count unknowns) }
{
    // Opens the invariant of the types.
    let _ = &unknowns.types.forms;
    let scopes = Scopes::new(alloc, bare.nodes.len())?;
    let settled = nothing(alloc, bare.names.len())?;
    let general = nothing(alloc, bare.nodes.len())?;
    let behind = nothing(alloc, bare.nodes.len())?;
    Ok(Inference {
        count,
        done: 0,
        scopes,
        settled,
        general,
        behind,
        unknowns,
    })
}
