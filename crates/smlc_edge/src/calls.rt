//! The calls of an object in memory, of which some are to fail.

ghost use Rattle.std.specs.Prelude.{◌≡◌, ◌==◌, false, IsTrue};
ghost use Rattle.std.specs.List.{list_any};
ghost use Rattle.smlc_edge.specs.Edge.{Fails};
ghost use Rattle.smlc_edge.specs.Calls.{raised, is_listed, is_clear, after_call};

use crate::edge::Failed;

/// The numbers of the calls that are to fail, how many calls were made, and how many failed. Calls are counted from 1.
#[derive(Debug, Drop)]
pub struct Calls {
    pub failing: Vec<u64>,
    pub made: u64,
    pub faults: u64,
}

impl Calls {
    /// No call was made.
    pub fn new(failing: Vec<u64>) -> Calls
        ensures { result ≡ record { failing = failing; made = 0; faults = 0 } }
    {
        Calls {
            failing,
            made: 0,
            faults: 0,
        }
    }

    /// Counts a fault. At its greatest value the count stands.
    pub fn fail(&mut self) -> Failed
        ensures raised { self.new ≡ record self.old { faults = raised self.old.faults } }
        ensures cause { Fails self.old.faults self.new.faults }
    {
        self.faults = self.faults.saturating_add(1);
        Failed
    }

    /// Counts a call, and answers whether it is to fail.
    pub fn next(&mut self) -> bool
        ensures listed { result ≡ is_listed self.old }
        ensures made { self.new ≡ after_call self.old }
        ensures quiet { IsTrue (is_clear self.old) → result ≡ false }
        ensures clear { IsTrue (is_clear self.old) → IsTrue (is_clear self.new) }
    {
        if self.made == u64::MAX {
            return false;
        }
        self.made += 1;
        stands_in(&self.failing, self.made)
    }
}

fn stands_in(numbers: &[u64], number: u64) -> bool
    ensures { result ≡ list_any (λ n. n == number) numbers.now }
{
    numbers.iter().any(|n| *n == number)
}
