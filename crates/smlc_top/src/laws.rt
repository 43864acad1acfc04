//! Laws of the definitions.

ghost use Rattle.std.specs.Prelude.{◌≡◌, ℕ, List};
ghost use Rattle.smlc_base.specs.declared.refusal.Refusal.{Refusal};
ghost use Rattle.sml_tree.specs.declared.tree.Tree.{Tree};
ghost use Rattle.sml_tree.specs.declared.bare.Bare.{Bare};
ghost use Rattle.smlc_top.specs.Front.{IsLibrary, HasTree, IsRefusal};

/// Files have at most one bare tree. Where they have one they have no refusal, and else at most one, if the library's text has a parse.
pub fn files_mean_one_thing()
    ensures tree { (files : List (List ℕ)) (a b : Bare) → HasTree files a → HasTree files b → a ≡ b }
    ensures apart { (files : List (List ℕ)) (bare : Bare) (r : Refusal) → HasTree files bare → IsRefusal files r → ⊥ }
    ensures refusal { (library : Tree) (files : List (List ℕ)) (q r : Refusal) → IsLibrary library → IsRefusal files q → IsRefusal files r → q ≡ r }
{}
