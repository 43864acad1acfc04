//! The machine as a run of what can be seen: output, end, entries, the arena as blocks, and what a count of the heap counts.
//!
//! It stands on `rv_machine`, `elf_static`, `simulation` and what these stand on. It has no code: `specs/Run.antt` makes a machine of
//! passes from the table of an image's entries, and `specs/Counted.antt` says what a count of the heap is on the machine's memory.
//! Its main contract: `machine_is_behaviour`, by which that run is the behaviour that the machine's definition gives.
#![tactic(auto)]

ghost use Rattle.std.specs.Prelude.{ℕ, List};
ghost use Rattle.elf_static.specs.declared.image.Entries.{Entries};
ghost use Rattle.rv_machine.specs.State.{State};
ghost use Rattle.rv_machine.specs.Run.{World, Cut};
ghost use Rattle.rv_run.specs.Run.{Spot};
ghost use Rattle.rv_run.specs.Laws.{IsBehaviour, EndTells, IsOrderly, CountsReach};

/// After each number of instructions the run is where the behaviour is, and ends as it does.
pub fn machine_is_behaviour()
    ensures { (table : Entries) (world : World) (cuts : List Cut) (n : ℕ) → IsBehaviour table world cuts n }
{}

/// How a run ends says which exit it did, with what on the error stream, and for a full arena with what in the registers.
pub fn ends_tell()
    ensures { (table : Entries) (s : Spot) → EndTells table s }
{}

/// Where the arena is in order, a count of the heap counts exactly the blocks that the run is seen to reach, with their words.
pub fn counts_are_reach()
    ensures { (table : Entries) (s : State) (roots : List ℕ) → IsOrderly table s roots → CountsReach table s roots }
{}
