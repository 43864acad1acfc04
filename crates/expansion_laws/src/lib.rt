//! The law of the expansion, about definitions alone: what it makes of the library's parse tree and a program's is a bare tree.
//!
//! It stands on `sml_expansion`, `sml_tree`, `sml_prelude` and `smlc_base`. Its contract is `expansion_is_bare`.
#![tactic(auto)]

pub mod bytes;

ghost use Rattle.sml_tree.specs.declared.tree.Tree.{Tree};
ghost use Rattle.expansion_laws.specs.Laws.{ExpandsToBare};

/// Of the library's tree nothing is assumed but that the program's goes on with its names and texts. If no rule of bindings is broken, and the width is within the limit, the expansion is all that a bare tree has to be: numbered in preorder, each part of its sort, each name bound once and around its uses, and all that is cited stands.
pub fn expansion_is_bare()
    ensures { (library tree : Tree) → ExpandsToBare library tree }
{}
