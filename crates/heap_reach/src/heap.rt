//! Words of an arena, headers, and what a word points to.

ghost use Rattle.std.specs.Prelude.{◌≡◌, ◌<◌, ◌≤◌, ◌+◌, ◌*◌, ◌^◌};
ghost use Rattle.rv_run.specs.Heap as heap;
ghost use Rattle.heap_reach.specs.Walk.{HasAddresses, Targets};

use rv_machine::Machine;

/// So many words of eight bytes from an address on.
#[derive(Clone, Copy)]
pub struct Arena {
    pub address: u64,
    pub words: u64,
    ghost ends: { HasAddresses address words },
}

/// Whether a header is that of a string.
pub fn is_string(header: u64) -> bool
    ensures { result ≡ heap.is_string header }
{
    header % 8 == 2
}

/// How many words stand behind a header.
pub fn body_words(header: u64) -> u64
    ensures { result ≡ heap.body_words header }
{
    let length = header / 0x1_0000_0000;
    if is_string(header) {
        (length + 7) / 8
    } else {
        length
    }
}

impl Arena {
    ghost use Rattle.rv_run.specs.Heap.{heap_word};

    /// A word of the arena, by its number, where the machine has it.
    pub fn word(self, machine: &Machine, number: u64) -> Option<u64>
        requires { number < self.words }
        ensures { result ≡ heap_word self.address machine.now.state number }
    {
        machine.word(self.address + 8 * number)
    }

    /// The number of the block to which a word points: a header stands there, and its block ends within the arena.
    pub fn target(self, machine: &Machine, word: u64) -> Option<u32>
        requires { self.words < 2 ^ 32 }
        ensures { Targets self.address self.words machine.now.state word result }
    {
        if word < self.address || (word - self.address) % 8 != 0 {
            return None;
        }
        let number = (word - self.address) / 8;
        if number >= self.words {
            return None;
        }
        let header = machine.word(word)?;
        if body_words(header) < self.words - number {
            Some(number as u32)
        } else {
            None
        }
    }
}
