//! Registers and spill records: where each value of a closed program stands, and what placing keeps.
//!
//! It stands on `placed_ir`, `closure_ir` and what these stand on. It has no code: `specs/Live.antt` and `specs/Place.antt` are what the code of the pass is to answer, and `specs/Bounds.antt` says what few registers and short spill records are.
#![tactic(auto)]

ghost use Rattle.std.specs.Prelude.{false, ◌≡◌, ◌≤◌, ◌*◌, ℕ, suc, List, length};
ghost use Rattle.simulation.specs.Blocks.{IsAmong};
ghost use Rattle.simulation.specs.Runs.{seen};
ghost use Rattle.simulation.specs.Keeps.{KeepsTidy, NamesAtOnce};
ghost use Rattle.closure_ir.specs.Code.{Code, Routine, Tree};
ghost use Rattle.closure_ir.specs.Order.{IsOrderly};
ghost use Rattle.closure_ir.specs.Run.{closed_run};
ghost use Rattle.placed_ir.specs.Run.{placed_run};
ghost use Rattle.place_laws.specs.Place.{Places, place_code, place_plain, place_routine, place_program, HasFewParams};
ghost use Rattle.place_laws.specs.Bounds.{UsesRegisters, HasFewLive, NamesOnce, vars_of, spilled};

/// The placed program keeps the closed one, for each input.
pub fn placing_keeps()
    ensures { (p : Tree) (input : List ℕ) → HasFewParams p → IsOrderly p → KeepsTidy false (closed_run p input) (placed_run (place_program p) input) }
{}

/// A placed body names 20 registers at most. One with at most 20 live values at every point makes no spill record, nor does one of at most 20 variables.
pub fn few_registers()
    ensures registers { (at : Places) (c : Code) → UsesRegisters (place_code at c) }
    ensures live { (f : Routine) → NamesOnce f.code → HasFewLive 20 f.code → place_routine f ≡ place_plain f }
    ensures variables { (vars : List ℕ) (f : Routine) → length vars ≤ 20 → NamesOnce f.code → ((y : ℕ) → IsAmong y (vars_of f.code) → IsAmong y vars) → place_routine f ≡ place_plain f }
{}

/// Spill records take at most the program's number of words for the first body and for each entry.
pub fn spills_are_bounded()
    ensures { (p : Tree) (input : List ℕ) → length p.functions ≤ length p.points → (n : ℕ) → spilled ((placed_run (place_program p) input).memory n) ≤ (place_program p).spill * suc (length (seen p.points (placed_run (place_program p) input) n)) }
{}
