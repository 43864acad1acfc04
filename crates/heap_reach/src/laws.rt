//! Laws of counts.

ghost use Rattle.std.specs.Prelude.{ℕ, List};
ghost use Rattle.rv_machine.specs.State.{State};
ghost use Rattle.heap_reach.specs.Laws.{CountsAreOne};

/// There is one count of a heap.
pub fn counts_are_one()
    ensures { (arena words : ℕ) (s : State) (roots : List ℕ) → CountsAreOne arena words s roots }
{}
