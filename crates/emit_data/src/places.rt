//! Where data stand, counted in instructions from the beginning of the text.

ghost use Rattle.std.specs.Prelude.{◌≡◌, ◌≤◌, ◌<◌, ◌+◌, ◌*◌, ◌^◌, map, All, IfOk};
ghost use Rattle.rv_asm.specs.Item as item;
ghost use Rattle.rv_asm.specs.Item.{IsNear};
ghost use Rattle.emit_text.specs.Text.{starts, text};
ghost use Rattle.emit_data.specs.Places.{next_page, block_words, block_places, read_only_place, line_place, writable_place, arena_place, end_place, datum_places};

use crate::names::{BACK, FRONT};
use crate::sizes::{string_words, total};
use emit_code::numbers::sum;
use emit_items::Labels;
use placed_ir::Placed;
use smlc_base::NoMemory;
use std::alloc::Global;

/// Where the read-only data begin, the two parts of a line behind their blocks, the writable memory, its arena, and where that ends.
#[derive(Clone, Copy)]
pub struct Places {
    pub read_only: u64,
    pub line: u64,
    pub writable: u64,
    pub arena: u64,
    pub end: u64,
}

fn next_page(place: u64) -> u64
    requires { place < 2 ^ 40 }
    ensures { result ≡ next_page place }
{
    (place + 1023) / 1024 * 1024
}

/// The places for so many instructions of text, blocks of these sizes and so many words of arena.
///
/// # Errors
///
/// Want of memory, as where the end is 2^31 - 4,096 bytes or more behind the beginning of the text: neither would each address be in reach, nor would
/// a machine have the memory.
pub fn places_of(
    placed: &Placed,
    words: u32,
    sizes: &[u32],
    arena_words: u64,
) -> Result<Places, NoMemory>
    requires words { words ≡ item.words (text placed.now) }
    requires sizes { sizes.now ≡ block_words placed.now }
    requires arena { arena_words ≤ 2 ^ 27 }
    ensures read_only { IfOk result (λ places. places.read_only ≡ read_only_place placed.now) }
    ensures line { IfOk result (λ places. places.line ≡ line_place placed.now) }
    ensures writable { IfOk result (λ places. places.writable ≡ writable_place placed.now) }
    ensures arena { IfOk result (λ places. places.arena ≡ arena_place placed.now) }
    ensures end { IfOk result (λ places. places.end ≡ end_place placed.now arena_words) }
    ensures near { IfOk result (λ places. IsNear places.end) }
{
    let blocks = total(sizes)?;
    let data = sum(sum(blocks, string_words(FRONT)?)?, string_words(BACK)?)?;
    let read_only = next_page(words as u64);
    let writable = next_page(read_only + 2 * data as u64);
    let arena = writable + 2048;
    let end = arena + 2 * arena_words;
    if end < 0x2000_0000 - 1024 {
        Ok(Places {
            read_only,
            line: read_only + 2 * blocks as u64,
            writable,
            arena,
            end,
        })
    } else {
        Err(NoMemory)
    }
}

// The place behind a block of so many words.
fn behind(place: u64, size: u32) -> Result<u64, NoMemory>
    ensures { IfOk result (λ n. n ≡ place + 2 * size) }
{
    match place.checked_add(2 * size as u64) {
        Some(next) => Ok(next),
        None => Err(NoMemory),
    }
}

/// Where blocks of so many words begin, one behind the other.
///
/// # Errors
///
/// Want of memory.
pub fn block_places(alloc: Global, start: u64, sizes: &[u32]) -> Result<Vec<u64>, NoMemory>
    ensures { IfOk result (λ places. places.items ≡ starts start (map (λ n. 2 * n) sizes.now)) }
{
    let mut places = Vec::new(alloc);
    let mut place = start;
    for size in sizes {
        places.push(place)?;
        place = behind(place, *size)?;
    }
    Ok(places)
}
