//! The counter.

ghost use Rattle.std.specs.Prelude.{◌≡◌, ◌<◌, ◌≤◌, ◌+◌, ◌^◌, length, replicate, slice_set, get_or, IfOk};
ghost use Rattle.rv_run.specs.Counted.{IsCount};
ghost use Rattle.heap_reach.specs.Walk.{HasAddresses};

use crate::heap::Arena;
use crate::numbers::NumberSet;
use crate::walk::{Count, walk};
use elf_static::Entries;
use rv_machine::Machine;
use smlc_base::{Label, NoMemory};
use std::alloc::Global;
use std::marker::Model;

/// Counts what is reached in an arena, and how often each label is entered.
#[derive(Drop)]
pub struct Reach {
    found: NumberSet,
    counts: Vec<u64>,
}

impl Model for Reach {
    ghost use Rattle.std.specs.Prelude.{◌≡◌, []};
    ghost use Rattle.heap_reach.specs.Tables.{Tables};

    ghost Value = { Tables };

    ghost view = { λ r. record { words = r.found.room; counts = r.counts.items } };

    ghost invariant = { λ r. r.found.numbers ≡ [] };
}

impl Reach {
    /// A counter for arenas of up to so many words, and so many labels, each of which was entered 0 times. It takes five bytes for each
    /// word and eight for each label. There is no memory for 2^32 words or more.
    pub fn new(alloc: Global, arena_words: u64, labels: u32) -> Result<Reach, NoMemory>
        ensures { IfOk result (λ r. r ≡ record { words = arena_words; counts = replicate labels 0 }) }
    {
        if arena_words > u32::MAX as u64 {
            return Err(NoMemory);
        }
        let found = NumberSet::new(alloc, arena_words as u32)?;
        let mut counts = Vec::new(alloc);
        counts.resize(labels as usize, 0)?;
        Ok(Reach { found, counts })
    }

    /// Every label was entered 0 times.
    pub fn restart(&mut self)
        ensures { self.new ≡ record self.old { counts = replicate (length self.old.counts) 0 } }
    {
        self.counts.fill(0);
    }

    /// The label is entered once more. Answers how often it was entered, with this time.
    pub fn enter(&mut self, label: Label) -> u64
        requires label { label.0 < length self.old.counts }
        requires count { get_or self.old.counts label.0 0 + 1 < 2 ^ 64 }
        ensures nth { result ≡ get_or self.old.counts label.0 0 + 1 }
        ensures counts { self.new ≡ record self.old { counts = slice_set self.old.counts label.0 (get_or self.old.counts label.0 0 + 1) } }
    {
        let at = label.0 as usize;
        self.counts[at] += 1;
        self.counts[at]
    }

    /// How many words of the arena, in how many blocks, are reached from these words. It takes no memory, and its time is linear in
    /// what it counts.
    ///
    /// A word that isn't the address of a word of the arena, or whose block would pass the arena's end, is no pointer. Blocks are told
    /// apart by their addresses, so where two overlap the words of both are counted. The words of strings aren't looked at.
    pub fn count(&mut self, machine: &Machine, entries: &Entries, roots: &[u64]) -> Count
        requires words { entries.now.arena_words ≤ self.old.words }
        requires addresses { HasAddresses entries.now.arena entries.now.arena_words }
        ensures count { IsCount entries.now.arena entries.now.arena_words machine.now.state roots.now result.words result.blocks }
        ensures kept { self.new ≡ self.old }
    {
        let arena = Arena {
            address: entries.arena,
            words: entries.arena_words,
        };
        let count = walk(arena, machine, &mut self.found, roots);
        self.found.clear();
        count
    }
}
