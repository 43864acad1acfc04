//! The end-to-end theorem of one run: how what the passes keep, and what the last of them owe beside it, come together to the meaning,
//! the space and the arena of the emitted program.
//!
//! It stands on `sml_def` for the source machine and what pays for space, on `simulation` for what passes keep, on `sml_tree` and `smlc_base`.
//! Its main contract: `good_run`, by which a run of the machine that keeps the source's is good for it.
#![tactic(auto)]

ghost use Rattle.std.specs.Prelude.{ℕ, List};
ghost use Rattle.smlc_base.specs.declared.point.Point.{Point};
ghost use Rattle.sml_tree.specs.declared.bare.Bare.{Bare};
ghost use Rattle.sml_tree.specs.IsBare.{IsBare};
ghost use Rattle.simulation.specs.Runs.{Run};
ghost use Rattle.sml_def.specs.Run.{run};
ghost use Rattle.end_to_end.specs.Owes.{IsPlaced, IsEmitted, Pays};
ghost use Rattle.end_to_end.specs.Good.{Comes, IsGoodRun, IsGoodFor, IsEnough, HasEnough};

/// The machine's run is good for any run whose words pay.
pub fn run_is_good()
    ensures { (charge : Point → ℕ) (factor spill arena : ℕ) (words made used next : ℕ → ℕ) (err : ℕ → List ℕ) (source placed machine : Run) →
        Comes charge spill arena used next err source placed machine → Pays charge factor words made source →
        IsGoodRun factor spill arena words made used next err source machine }
{}

/// The machine's run is good for the source's run of the program on this input.
pub fn good_run()
    ensures { (p : Bare) (input : List ℕ) (charge : Point → ℕ) (factor spill arena : ℕ) (used next : ℕ → ℕ) (err : ℕ → List ℕ) (placed machine : Run) →
        IsBare p → Comes charge spill arena used next err (run p input) placed machine → IsGoodFor p input charge factor spill arena used next err machine }
{}

/// A program that makes and passes no more than the arena has room for never fills it.
pub fn enough()
    ensures { (p : Bare) (input : List ℕ) (charge : Point → ℕ) (factor spill arena : ℕ) (used next : ℕ → ℕ) (err : ℕ → List ℕ) (placed machine : Run) →
        IsBare p → Comes charge spill arena used next err (run p input) placed machine → HasEnough p input charge factor spill arena machine }
{}
