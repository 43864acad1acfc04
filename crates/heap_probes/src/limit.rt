//! A limit.

ghost use Rattle.std.specs.Prelude.{◌≡◌};

use crate::lines::{put, put_number};
use crate::probe::{Entry, Next, Probe};
use smlc_base::NoMemory;

/// Is done at the first entry with more words than its limit. Its line is `probe limit W kept`.
#[derive(Drop)]
pub struct LimitProbe {
    limit: u64,
}

impl LimitProbe {
    /// Nothing was told yet.
    pub fn new(limit: u64) -> LimitProbe
        ensures { result ≡ record { limit = limit } }
    {
        LimitProbe { limit }
    }
}

impl Probe for LimitProbe {
    ghost use Rattle.heap_probes.specs.Rules.{limit_shown};

    ghost shown = { λ p. limit_shown p.limit };

    fn note(&mut self, entry: &Entry) -> Next {
        if entry.words <= self.limit {
            Next::More
        } else {
            Next::Done
        }
    }

    fn line(&self, out: &mut Vec<u8>) -> Result<(), NoMemory> {
        match put_number(out, b"probe limit ", self.limit) {
            Ok(()) => put(out, b" kept"),
            Err(failed) => Err(failed),
        }
    }
}
