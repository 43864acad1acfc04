//! Tokens have at most one tree, or one refusal. No code.
//!
//! It stands on `sml_fixity` for what a parse and a refusal are, on `syntax_laws`, `sml_syntax`, `sml_lexer`, `sml_tree` and `smlc_base`. Its main contract: `one_parse`: a list of tokens has at most one tree; where it has one it has no refusal, and else at most one.
#![tactic(auto)]

ghost use Rattle.std.specs.Prelude.{◌≡◌};
ghost use Rattle.smlc_base.specs.declared.refusal.Refusal.{Refusal};
ghost use Rattle.sml_lexer.specs.declared.lexed.Lexed.{Lexed};
ghost use Rattle.sml_lexer.specs.Programs.{AreAlike};
ghost use Rattle.sml_tree.specs.declared.tree.Tree.{Tree};
ghost use Rattle.sml_fixity.specs.Parse.{IsParse, IsRefusal};
ghost use Rattle.front_laws.specs.Same.{AreSame};

/// Tokens have at most one tree; where they have one they have no refusal, and else at most one.
pub fn one_parse()
    ensures tree { (a b : Lexed) (s t : Tree) → AreAlike a b → IsParse a s → IsParse b t → AreSame s t }
    ensures apart { (a b : Lexed) (s : Tree) (r : Refusal) → AreAlike a b → IsParse a s → IsRefusal b r → ⊥ }
    ensures refusal { (a b : Lexed) (q r : Refusal) → AreAlike a b → IsRefusal a q → IsRefusal b r → q ≡ r }
{}
