//! Character constants are bytes.

ghost use Rattle.std.specs.List.{AllByRecursion};
ghost use Rattle.expansion_laws.specs.Laws.{CharFits};

use sml_tree::tree_node::TreeNode;

fn char_fits(node: TreeNode)
    ensures { CharFits node }
{
    match node {
        TreeNode::Char(_byte) => {}
        _ => {}
    }
}

/// The character constants of these nodes are bytes.
pub fn chars_fit(nodes: &[TreeNode])
    ensures { AllByRecursion CharFits nodes.now }
{
    for node in nodes {
        char_fits(*node);
    }
}
