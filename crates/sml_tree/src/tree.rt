//! The parse tree of a program.

ghost use Rattle.std.specs.Prelude.{◌≡◌, ◌≤◌, length, true, Some, []};
ghost use Rattle.sml_tree.specs.Depth.{depths, greatest};
ghost use Rattle.sml_tree.specs.Kinds.{shaped};
ghost use Rattle.sml_tree.specs.Tree.{all_cited, leaves, roots};

use crate::tree_node::TreeNode;
use smlc_base::{Bytes, Names, Place, Row};

/// The nodes of a program, each behind its parts, with the names and string constants that they cite.
#[derive(Drop)]
pub struct Tree {
    pub nodes: Row<TreeNode>,
    /// The place of the first token of each node.
    pub places: Row<Place>,
    /// The number of each top-level declaration's node, in order.
    pub decs: Row<u32>,
    pub names: Names,
    pub texts: Row<Bytes>,
    ghost placed: { length places ≡ length nodes },
    ghost forest: { roots 0 [] nodes ≡ Some decs },
    ghost cited: { all_cited (length names) (length texts) nodes ≡ true },
    ghost few: { leaves nodes ≤ 1048576 },
    ghost shaped: { shaped [] nodes ≡ true },
    ghost shallow: { greatest (depths [] nodes) ≤ 1024 },
}
