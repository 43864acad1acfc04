//! What the table says of a state: its row, its roots, and the words that are used.

ghost use Rattle.std.specs.Prelude.{◌≡◌, ◌<◌, ◌≤◌, length, take};
ghost use Rattle.rv_run.specs.Run.{row_at, registers_from, root_words};
ghost use Rattle.heap_reach.specs.Walk.{HasAddresses};
ghost use Rattle.heap_meter.specs.Entries.{IsUsed};

use elf_static::{Entries, EntryRow};
use rv_machine::Machine;

/// The first row with this address.
pub fn row_of(rows: &[EntryRow], pc: u64) -> Option<EntryRow>
    ensures { result ≡ row_at rows.now pc }
{
    let mut at = 0;
    while at < rows.len() {
        if rows[at].address == pc {
            return Some(rows[at]);
        }
        at += 1;
    }
    None
}

/// How many words of the arena have addresses below x8.
pub fn used_words(machine: &Machine, entries: &Entries) -> u64
    ensures { IsUsed entries.now machine.now.state result }
{
    let next = machine.reg(8);
    if next <= entries.arena {
        return 0;
    }
    let words = (next - entries.arena - 1) / 8 + 1;
    if words < entries.arena_words {
        words
    } else {
        entries.arena_words
    }
}
