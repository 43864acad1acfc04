//! Entries, and what may be told of them.

ghost use Rattle.std.specs.Prelude.{◌≡◌};
ghost use Rattle.heap_probes.specs.Probe.{Shown, told, answer_of, line_of};
ghost use Rattle.heap_probes.specs.Lines.{Puts};

use smlc_base::{Label, NoMemory};

/// A measured entry: the label that is entered, for which time since the run began, how many words of the arena are reached there, and
/// how many are used.
#[derive(Clone, Copy)]
pub struct Entry {
    pub label: Label,
    pub nth: u64,
    pub words: u64,
    pub used: u64,
}

/// Whether a probe is to be told more.
#[derive(Clone, Copy)]
pub enum Next {
    More,
    /// It is dropped.
    Done,
}

/// What is told each measured entry of a run.
pub trait Probe: Drop {
    /// Its rule, and what it has noted.
    ghost shown: { Self → Shown };

    /// Notes an entry. It takes no memory.
    fn note(&mut self, entry: &Entry) -> Next
        ensures noted { shown self.new ≡ told entry.now (shown self.old) }
        ensures answer { result ≡ answer_of entry.now (shown self.old) };

    /// Puts its line behind a text, without the newline. After want of memory a part of the line stands there.
    fn line(&self, out: &mut Vec<u8>) -> Result<(), NoMemory>
        ensures { Puts (line_of (shown self.now)) out.old.items out.new.items result };
}
