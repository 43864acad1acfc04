//! Nodes are numbers of 32 bits, which proofs know of a number that is read.

ghost use Rattle.std.specs.Prelude.{◌<◌, ◌^◌};
ghost use Rattle.std.specs.List.{AllByRecursion};

use cps_survey::Layout;

fn small(node: u32)
    ensures { node < 2 ^ 32 }
{
    let _ = node;
}

fn small_node(layout: &Layout)
    ensures { layout.now.point.node < 2 ^ 32 }
{
    small(layout.point().node)
}

/// The nodes of functions have 32 bits.
pub(crate) fn small_nodes(all: &[Layout])
    ensures { AllByRecursion (λ l. l.point.node < 2 ^ 32) all.now }
{
    for layout in all {
        small_node(layout);
    }
}
