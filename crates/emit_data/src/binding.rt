//! The labels of data, bound.

ghost use Rattle.std.specs.Prelude.{◌≡◌, ◌<◌, ◌≤◌, ◌+◌, ◌^◌, ℕ, length, IfOk, OnOk};
ghost use Rattle.std.specs.List.{All};
ghost use Rattle.rv_asm.specs.Item as item;
ghost use Rattle.rv_asm.specs.Item.{IsNear};
ghost use Rattle.rv_asm.specs.Program.{IsFree};
ghost use Rattle.emit_text.specs.Labels.{labels_of};
ghost use Rattle.emit_text.specs.Text.{text, text_program};
ghost use Rattle.emit_data.specs.Places.{read_only_place, writable_place, arena_place, end_place};
ghost use Rattle.emit_data.specs.Program.{with_places, data_from, program_of};

use crate::places::{Places, block_places, places_of};
use crate::sizes::block_words;
use emit_code::numbers::sum;
use emit_items::Labels;
use placed_ir::Placed;
use rt_prims::Datum;
use rv_asm::Asm;
use smlc_base::NoMemory;
use std::alloc::Global;

fn bind_places(asm: &mut Asm, first: u32, places: &[u64]) -> Result<(), NoMemory>
    requires free { (j : ℕ) → j < length places.now → IsFree asm.old (first + j) }
    requires near { All IsNear places.now }
    ensures { OnOk result (asm.new ≡ with_places asm.old first places.now) }
{
    let mut label = first;
    for place in places {
        asm.bind_at(label, *place);
        label = sum(label, 1)?;
    }
    Ok(())
}

// The places of the data that routines know. Block `names` is the first of the library's exceptions.
fn datum_places(places: Places, blocks: &[u64], names: usize) -> [u64; 10]
    requires room { places.writable + 1032 < 2 ^ 64 }
    requires line { places.line + 8 < 2 ^ 64 }
    requires names { names + 5 < length blocks.now }
    ensures { result ≡ data_from places blocks.now names }
{
    [
        places.writable,
        places.writable + 1032,
        places.arena,
        places.end,
        blocks[names + 3],
        blocks[names + 2],
        blocks[names + 4],
        blocks[names + 5],
        places.line,
        places.line + 8,
    ]
}

fn bind_both(asm: &mut Asm, labels: &Labels, blocks: &[u64], known: &[u64]) -> Result<(), NoMemory>
    requires blocks_free { (j : ℕ) → j < length blocks.now → IsFree asm.old (labels.now.texts + j) }
    requires blocks_near { All IsNear blocks.now }
    requires apart { labels.now.texts + length blocks.now ≤ labels.now.routines + 18 }
    requires known_free { (j : ℕ) → j < length known.now → IsFree asm.old (labels.now.routines + 18 + j) }
    requires known_near { All IsNear known.now }
    ensures { OnOk result (asm.new ≡ with_places (with_places asm.old labels.now.texts blocks.now) (labels.now.routines + 18) known.now) }
{
    bind_places(asm, labels.texts, blocks)?;
    let first = sum(labels.routines, Datum::Segment.place())?;
    bind_places(asm, first, known)
}

/// Binds the labels of all data, where the text has so many instructions, and answers where the data stand.
///
/// # Errors
///
/// Want of memory, as `places_of` says.
pub fn bind_data(
    asm: &mut Asm,
    alloc: Global,
    labels: &Labels,
    placed: &Placed,
    words: u32,
    arena_words: u64,
) -> Result<Places, NoMemory>
    requires labels { labels.now ≡ labels_of placed.now }
    requires program { asm.old ≡ text_program placed.now }
    requires words { words ≡ item.words (text placed.now) }
    requires arena { arena_words ≤ 2 ^ 27 }
    ensures program { OnOk result (asm.new ≡ program_of placed.now arena_words) }
    ensures read_only { IfOk result (λ places. places.read_only ≡ read_only_place placed.now) }
    ensures writable { IfOk result (λ places. places.writable ≡ writable_place placed.now) }
    ensures arena { IfOk result (λ places. places.arena ≡ arena_place placed.now) }
    ensures near { IfOk result (λ places. IsNear (end_place placed.now arena_words)) }
{
    let sizes = block_words(alloc, placed)?;
    let places = places_of(placed, words, sizes.as_slice(), arena_words)?;
    let blocks = block_places(alloc, places.read_only, sizes.as_slice())?;
    let names = (labels.names - labels.texts) as usize;
    let known = datum_places(places, blocks.as_slice(), names);
    bind_both(asm, labels, blocks.as_slice(), &known)?;
    Ok(places)
}
