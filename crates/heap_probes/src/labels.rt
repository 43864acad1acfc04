//! The busiest label.

ghost use Rattle.std.specs.Prelude.{◌≡◌, ◌==◌, max, replicate, IfOk};
ghost use Rattle.std.specs.List.{position_from};
ghost use Rattle.heap_probes.specs.Rules.{greatest, first_greatest};

use crate::lines::put_number;
use crate::probe::{Entry, Next, Probe};
use smlc_base::NoMemory;
use std::alloc::Global;

/// Notes how often each label was told, of those below a bound. Its line is `probe busiest L times T`.
#[derive(Drop)]
pub struct LabelProbe {
    counts: Vec<u64>,
}

fn larger(a: u64, b: u64) -> u64
    ensures { result ≡ max a b }
{
    if a > b { a } else { b }
}

fn greatest(counts: &[u64]) -> u64
    ensures { result ≡ greatest counts.now }
{
    let mut at = counts.len();
    let mut most = 0;
    while at > 0 {
        at -= 1;
        most = larger(counts[at], most);
    }
    most
}

fn place_of(counts: &[u64], number: u64) -> Option<usize>
    ensures { result ≡ position_from (λ n. n == number) 0 counts.now }
{
    counts.iter().position(|count| *count == number)
}

fn first_greatest(counts: &[u64]) -> u64
    ensures { result ≡ first_greatest counts.now }
{
    match place_of(counts, greatest(counts)) {
        Some(at) => at as u64,
        None => 0,
    }
}

impl LabelProbe {
    /// Nothing was told yet, of so many labels.
    pub fn new(alloc: Global, labels: u32) -> Result<LabelProbe, NoMemory>
        ensures { IfOk result (λ p. p.counts.items ≡ replicate labels 0) }
    {
        let mut counts = Vec::new(alloc);
        counts.resize(labels as usize, 0)?;
        Ok(LabelProbe { counts })
    }
}

impl Probe for LabelProbe {
    ghost use Rattle.heap_probes.specs.Rules.{label_shown};

    ghost shown = { λ p. label_shown p.counts.items };

    fn note(&mut self, entry: &Entry) -> Next {
        let at = entry.label.0 as usize;
        if at < self.counts.len() {
            self.counts[at] = self.counts[at].saturating_add(1);
        }
        Next::More
    }

    fn line(&self, out: &mut Vec<u8>) -> Result<(), NoMemory> {
        let counts = self.counts.as_slice();
        match put_number(out, b"probe busiest ", first_greatest(counts)) {
            Ok(()) => put_number(out, b" times ", greatest(counts)),
            Err(failed) => Err(failed),
        }
    }
}
