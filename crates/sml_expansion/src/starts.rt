//! Where the trees of a list of nodes begin.

ghost use Rattle.std.specs.Prelude.{◌≡◌, IfOk};
ghost use Rattle.sml_expansion.specs.Starts.{before, starts_of};

use crate::number::{number, number_at};
use sml_tree::TreeNode;
use smlc_base::NoMemory;
use std::alloc::Global;

/// The number of nodes before so many of the last trees of the first nodes.
fn before(starts: &[u32], trees: u32, nodes: u32) -> u32
    ensures { result ≡ before starts.now trees nodes }
{
    let mut start = nodes;
    for _ in 0..trees {
        if start == 0 {
            return 0;
        }
        start = number_at(starts, (start - 1) as usize);
    }
    start
}

/// The number of nodes before the tree of each node, where each node stands behind its parts.
pub fn starts(alloc: Global, nodes: &[TreeNode]) -> Result<Vec<u32>, NoMemory>
    ensures { IfOk result (λ starts. starts.items ≡ starts_of nodes.now) }
{
    let mut starts = Vec::new(alloc);
    for node in nodes {
        let start = before(&starts, node.parts(), number(starts.len())?);
        starts.push(start)?;
    }
    Ok(starts)
}
