//! Laws of type inference, about definitions alone.
//!
//! It stands on `infer_state`, `infer_parts`, `sml_unify`, `sml_types`, `sml_tree` and `smlc_base`. Its main contracts: a substitution that has the types of a typing meets the rule of each node (`typings_meet_rules`); where the rules and what is left to check hold, there is a typing (`rules_give_typings`), and each other typing is an instance of it (`most_general_is_principal`).
#![tactic(auto)]

ghost use Rattle.std.specs.Prelude.{ℕ, Option, List};
ghost use Rattle.sml_tree.specs.declared.bare.Bare.{Bare};
ghost use Rattle.sml_types.specs.declared.types.Ty.{Ty};
ghost use Rattle.sml_types.specs.declared.types.TyForm.{TyForm};
ghost use Rattle.sml_types.specs.declared.types.TyVar.{TyVar};
ghost use Rattle.sml_types.specs.declared.scheme.Scheme.{Scheme};
ghost use Rattle.sml_types.specs.declared.tables.TypeName.{TypeName};
ghost use Rattle.sml_types.specs.Poly.{Context, Poly};
ghost use Rattle.sml_types.specs.Typing.{Typing};
ghost use Rattle.sml_unify.specs.Solved.{Substitution};
ghost use Rattle.infer_state.specs.declared.declared.Starts.{Starts};
ghost use Rattle.infer_laws.specs.Cited.{WrittenTypesStay};
ghost use Rattle.infer_laws.specs.Meets.{Follows, TypingsMeet};
ghost use Rattle.infer_laws.specs.Gives.{RulesGive};
ghost use Rattle.infer_laws.specs.Principal.{MostGeneralIsPrincipal};

/// A substitution that leaves the explicit type variables changes nothing in what written types mean.
pub fn written_types_stay()
    ensures { (p : Bare) (names : List TypeName) (abbreviations : ℕ → Poly) (f : Substitution) → WrittenTypesStay p names abbreviations f }
{}

/// A substitution that has the types of a typing, and that the settled schemes suit, meets the rule of each node that is ready.
pub fn typings_meet_rules()
    ensures { (p : Bare) (forms : List TyForm) (names : List TypeName) (settled : ℕ → Option Poly) (f : Substitution) (t : Typing) → Follows p forms names settled f t → TypingsMeet p forms names settled f t }
{}

/// Where a substitution meets the rule of each node, and what is left to check holds, its types and the settled schemes are a typing.
pub fn rules_give_typings()
    ensures { (p : Bare) (forms : List TyForm) (names : List TypeName) (abbreviations : List Scheme) (contexts : ℕ → Option Context) (settled : ℕ → Option Poly) (general : List (List TyVar)) (f : Substitution) → RulesGive p forms names abbreviations contexts settled general f }
{}

/// This typing is principal, if the substitution says no more than what is bound, and each typing has a solution with its types that the settled schemes suit.
pub fn most_general_is_principal()
    ensures { (p : Bare) (forms : List TyForm) (bound : List (Option Ty)) (starts : Starts) (names : List TypeName) (abbreviations : List Scheme) (contexts : ℕ → Option Context) (settled : ℕ → Option Poly) (general : List (List TyVar)) (f : Substitution) → MostGeneralIsPrincipal p forms bound starts names abbreviations contexts settled general f }
{}
