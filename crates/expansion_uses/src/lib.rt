//! That a tree which the expansion makes uses its function constants and its exceptions well. No code.
//!
//! It stands on `expansion_laws` and `sane_laws` and what these stand on. Its contract is `expansions_use_well`: so what is proved of trees that do, that their runs are sane, that `Lambda` keeps them and that the rules of the Definition agree with their machine, holds of each program that the front end accepts.
#![tactic(auto)]

ghost use Rattle.sml_tree.specs.declared.tree.Tree.{Tree};
ghost use Rattle.expansion_uses.specs.Law.{ExpandsToUses};

/// If the library's parse tree and a program's break no rule of bindings, then in their expansion a primitive of function type and a constructor with an argument stand as function parts alone, and a name that an exception declaration binds is cited as an exception and never as a variable.
pub fn expansions_use_well()
    ensures { (library tree : Tree) → ExpandsToUses library tree }
{}
