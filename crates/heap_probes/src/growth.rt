//! The greatest rise.

ghost use Rattle.std.specs.Prelude.{◌≡◌};

use crate::lines::put_number;
use crate::probe::{Entry, Next, Probe};
use smlc_base::NoMemory;

/// Notes the greatest rise of the words from one entry to the next, the first counted from 0. Its line is `probe growth G`.
#[derive(Drop)]
pub struct GrowthProbe {
    last: u64,
    growth: u64,
}

impl GrowthProbe {
    /// Nothing was told yet.
    pub fn new() -> GrowthProbe
        ensures { result ≡ record { last = 0; growth = 0 } }
    {
        GrowthProbe { last: 0, growth: 0 }
    }
}

impl Probe for GrowthProbe {
    ghost use Rattle.heap_probes.specs.Rules.{growth_shown};

    ghost shown = { λ p. growth_shown p.last p.growth };

    fn note(&mut self, entry: &Entry) -> Next {
        let rise = entry.words.saturating_sub(self.last);
        self.last = entry.words;
        if rise > self.growth {
            self.growth = rise;
        }
        Next::More
    }

    fn line(&self, out: &mut Vec<u8>) -> Result<(), NoMemory> {
        put_number(out, b"probe growth ", self.growth)
    }
}
