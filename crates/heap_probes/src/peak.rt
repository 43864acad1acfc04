//! The peak.

ghost use Rattle.std.specs.Prelude.{◌≡◌};

use crate::lines::put_number;
use crate::probe::{Entry, Next, Probe};
use smlc_base::NoMemory;

/// Notes the greatest number of words. Its line is `probe peak W`.
#[derive(Drop)]
pub struct PeakProbe {
    peak: u64,
}

impl PeakProbe {
    /// Nothing was told yet.
    pub fn new() -> PeakProbe
        ensures { result ≡ record { peak = 0 } }
    {
        PeakProbe { peak: 0 }
    }
}

impl Probe for PeakProbe {
    ghost use Rattle.heap_probes.specs.Rules.{peak_shown};

    ghost shown = { λ p. peak_shown p.peak };

    fn note(&mut self, entry: &Entry) -> Next {
        if entry.words > self.peak {
            self.peak = entry.words;
        }
        Next::More
    }

    fn line(&self, out: &mut Vec<u8>) -> Result<(), NoMemory> {
        put_number(out, b"probe peak ", self.peak)
    }
}
