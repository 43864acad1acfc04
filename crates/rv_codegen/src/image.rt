//! The image.

ghost use Rattle.std.specs.Prelude.{◌≡◌, ◌≤◌, ◌<◌, ◌+◌, ◌*◌, ◌^◌, [], ◌∷◌, length, IfOk};
ghost use Rattle.rv_asm.specs.Item.{IsNear};
ghost use Rattle.rv_asm.specs.Layout.{addresses};
ghost use Rattle.elf_static.specs.Layout.{IsLaidOut};
ghost use Rattle.emit_text.specs.Labels.{labels_of};
ghost use Rattle.emit_data.specs.Places.{read_only_place, writable_place, arena_place, end_place};
ghost use Rattle.emit_data.specs.Program.{program_of};
ghost use Rattle.rv_codegen.specs.Image.{base, text_bytes, image_of};

use crate::laying::{BASE, Laid, lay_out};
use crate::rows::rows_of;
use close_laws::Plan;
use elf_static::{Entries, Image, Segment};
use emit_data::read_only;
use emit_items::Labels;
use emit_text::labels_of;
use placed_ir::Placed;
use plan_text::text_of;
use smlc_base::{Bytes, NoMemory, Row};
use std::alloc::Global;

// The address of a place that is counted in instructions.
fn address(place: u64) -> u64
    requires { place < 2 ^ 40 }
    ensures { result ≡ 65536 + 4 * place }
{
    BASE + 4 * place
}

// A segment that is as long as its bytes.
fn segment(address: u64, flags: u32, bytes: Bytes) -> Segment
    ensures { result ≡ record { address = address; flags = flags; bytes = bytes; size = length bytes } }
{
    let size = bytes.len() as u64;
    Segment {
        address,
        flags,
        bytes,
        size,
    }
}

// Memory that may be written, with 8,192 bytes and an arena.
fn writable(alloc: Global, address: u64, arena_words: u64) -> Segment
    requires { arena_words ≤ 2 ^ 27 }
    ensures { result ≡ record { address = address; flags = 6; bytes = []; size = 8192 + 8 * arena_words } }
{
    Segment {
        address,
        flags: 6,
        bytes: Row::new(alloc),
        size: 8192 + 8 * arena_words,
    }
}

fn image_with(
    alloc: Global,
    text: Segment,
    read_only: Segment,
    writable: Segment,
    entries: Entries,
    plan: Vec<u8>,
) -> Result<Image, NoMemory>
    ensures { IfOk result (λ image. image ≡ record { entry = 65536; segments = text ∷ read_only ∷ writable ∷ []; entries = entries; plan = plan.items }) }
{
    let mut segments = Row::new(alloc);
    segments.push(text)?;
    segments.push(read_only)?;
    segments.push(writable)?;
    Ok(Image {
        entry: BASE,
        segments,
        entries,
        plan: Row::from_vec(plan),
    })
}

// The image of code that is laid out.
fn build(
    alloc: Global,
    labels: &Labels,
    placed: &Placed,
    plan: &Plan,
    laid: Laid,
    arena_words: u64,
) -> Result<Image, NoMemory>
    requires labels { labels.now ≡ labels_of placed.now }
    requires arena { arena_words ≤ 2 ^ 27 }
    requires bytes { laid.code.bytes ≡ text_bytes placed.now arena_words }
    requires at { laid.code.at ≡ addresses base (program_of placed.now arena_words).places }
    requires read_only { laid.places.read_only ≡ read_only_place placed.now }
    requires writable { laid.places.writable ≡ writable_place placed.now }
    requires arena_at { laid.places.arena ≡ arena_place placed.now }
    requires near { IsNear (end_place placed.now arena_words) }
    ensures image { IfOk result (λ image. image ≡ image_of placed.now arena_words plan.now) }
    ensures few { IfOk result (λ image. length placed.now.points < 2 ^ 32) }
{
    let data = read_only(alloc, labels, placed, laid.code.at.items())?;
    let count = labels.points;
    let rows = rows_of(alloc, labels, placed, count, laid.code.at.items())?;
    let plan_text = text_of(alloc, plan)?;
    let places = laid.places;
    let text = segment(address(0), 5, laid.code.bytes);
    let constants = segment(address(places.read_only), 4, Row::from_vec(data));
    let memory = writable(alloc, address(places.writable), arena_words);
    let entries = Entries {
        rows,
        factor: plan.factor,
        spill: placed.spill(),
        arena: address(places.arena),
        arena_words,
    };
    image_with(alloc, text, constants, memory, entries, plan_text)
}

/// The image of a program with its plan, whose arena has so many words. The plan's `spill` is to be the program's.
///
/// # Errors
///
/// Want of memory, as where the end of the arena is 2^31 - 4,096 bytes or more behind the beginning of the text, or there are 2^32 labels or more.
pub fn emit(
    alloc: Global,
    placed: &Placed,
    plan: &Plan,
    arena_words: u64,
) -> Result<Image, NoMemory>
    requires least { 1024 ≤ arena_words }
    requires most { arena_words ≤ 2 ^ 27 }
    ensures image { IfOk result (λ image. image ≡ image_of placed.now arena_words plan.now) }
    ensures laid_out { IfOk result IsLaidOut }
{
    // Opens what a program keeps.
    let _ = placed.bodies();
    let labels = labels_of(placed)?;
    let laid = lay_out(alloc, &labels, placed, arena_words)?;
    let image = build(alloc, &labels, placed, plan, laid, arena_words)?;
    Ok(image)
}
