//! Laws of the definition.

ghost use Rattle.std.specs.Prelude.{◌≡◌, ℕ, List};
ghost use Rattle.smlc_base.specs.declared.refusal.Refusal.{Refusal};
ghost use Rattle.sml_lexer.specs.declared.lexed.Lexed.{Lexed};
ghost use Rattle.sml_lexer.specs.Files.{IsRefusal};
ghost use Rattle.sml_lexer.specs.Programs.{IsLexed, AreAlike};
ghost use Rattle.sml_lexer.specs.Tokens.{Lexeme, AreTokens, Fault, Fails};

/// A file has at most one list of tokens, and no fault where it has one. A list of files has at most one refusal, and behind given names and texts at most one `Lexed`.
pub fn one_reading()
    ensures tokens { (file : List ℕ) (ts us : List Lexeme) → AreTokens file ts → AreTokens file us → ts ≡ us }
    ensures faults { (file : List ℕ) (ts : List Lexeme) (fault : Fault) → AreTokens file ts → Fails file fault → ⊥ }
    ensures refusals { (first : ℕ) (files : List (List ℕ)) (r s : Refusal) → IsRefusal first files r → IsRefusal first files s → r ≡ s }
    ensures lexed { (names texts : List (List ℕ)) (first : ℕ) (files : List (List ℕ)) (a b : Lexed) → IsLexed names texts first files a → IsLexed names texts first files b → AreAlike a b }
{}
