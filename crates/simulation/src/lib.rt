//! What each pass of the compiler keeps, and how a simulation of two machines shows it.
//!
//! It stands on `smlc_base` for the points of a program. Its main contract: `every_pass_keeps`, by which what each pass of a chain keeps is kept by all of them together.
#![tactic(auto)]

ghost use Rattle.std.specs.Prelude.{◌≡◌, Bool, false, ℕ, List};
ghost use Rattle.smlc_base.specs.declared.point.Point.{Point};
ghost use Rattle.simulation.specs.Runs.{Run};
ghost use Rattle.simulation.specs.Keeps.{Keeps, KeepsUnlessFull, KeepsTidy, EachKeeps, last_of, Follows, IsSound, IsTidy, IsKept, IsNthPass, EntriesArePasses};
ghost use Rattle.simulation.specs.Words.{ReachIsPaid, MakingIsPaid};
ghost use Rattle.simulation.specs.Refused.{LosesOutput, NeverEnds, EntersTooOften, KeepsTooMuch, MakesAnother, LeavesUnnamed};

/// A program whose records are in order keeps itself.
pub fn a_program_keeps_itself()
    ensures { (a : Run) → IsTidy false a → Keeps a a }
{}

/// Passes compose.
pub fn passes_compose()
    ensures { (a b c : Run) → Keeps a b → Keeps b c → Keeps a c }
{}

/// The last pass, after which a run may end for want of arena, composes with those before it.
pub fn the_last_pass_composes()
    ensures { (a b c : Run) → Keeps a b → KeepsUnlessFull b c → KeepsUnlessFull a c }
{}

/// Any number of passes and a last one keep the program. Each may take it that the records of its argument are in order.
pub fn every_pass_keeps()
    ensures { (full : Bool) (a : Run) (passes : List Run) (b : Run) → EachKeeps a passes → KeepsTidy full (last_of a passes) b → IsTidy false a → IsSound a → IsKept full a b }
{}

/// Entries are passes of the source, the i-th of each label the i-th, and the i-th pass of a point is one step.
pub fn entries_are_passes()
    ensures in_step { (full : Bool) (a b : Run) → Follows full a b → EntriesArePasses full a b }
    ensures one { (r : Run) (p : Point) (i m n : ℕ) → IsNthPass r p i m → IsNthPass r p i n → m ≡ n }
{}

/// What can be reached at an entry is paid for by what the source reaches where it passes that point.
pub fn reach_is_paid()
    ensures { (full : Bool) (a b : Run) → Follows full a b → IsTidy full b → ReachIsPaid a b }
{}

/// What was made is paid for by what the source has made before its next pass.
pub fn making_is_paid()
    ensures { (full : Bool) (a b : Run) → Follows full a b → MakingIsPaid a b }
{}

/// Wrong answers aren't kept.
pub fn wrong_answers_are_refused()
    ensures output { (a b : Run) → IsKept false a b → LosesOutput a b → ⊥ }
    ensures end { (a b : Run) → IsKept false a b → NeverEnds a b → ⊥ }
    ensures entry { (a b : Run) → IsKept false a b → EntersTooOften a b → ⊥ }
    ensures reach { (a b : Run) → IsKept false a b → KeepsTooMuch a b → ⊥ }
    ensures block { (a b : Run) → IsKept false a b → MakesAnother a b → ⊥ }
    ensures class { (a b : Run) → IsKept false a b → LeavesUnnamed b → ⊥ }
{}
