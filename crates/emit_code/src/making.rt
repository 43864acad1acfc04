//! Blocks and spill records that are made.

ghost use Rattle.std.specs.Prelude.{◌≡◌, ◌<◌, ◌+◌, ◌*◌, ◌^◌, suc, pos, ◌++◌, length, IfOk, OnOk};
ghost use Rattle.emit_items.specs.Reading.{got, where_got, word_stored};
ghost use Rattle.rv_isa.specs.declared.table.Op.TheVariants.{Bgeu};
ghost use Rattle.rv_asm.specs.Item.{words};
ghost use Rattle.emit_items.specs.Items.{s_item};
ghost use Rattle.emit_items.specs.Making.{extra_words, block_length, group_words, header, header_of, full_end, room, header_put, spelling_put, fields_put, block_put, group_put, made, filled, framed};

use crate::constants::load;
use crate::items::{FRAME, FREE, LIMIT, i, put_moved, s};
use crate::numbers::sum;
use crate::reading::{get, put_behind, routine_label, store_word};
use closure_ir::Shape;
use emit_items::Labels;
use placed_ir::{Building, Source};
use rt_prims::Routine;
use rv_asm::Item;
use rv_isa::Op::{Addi, Bgeu};
use smlc_base::NoMemory;

/// How many instructions items are.
pub fn words(items: &[Item]) -> Result<u32, NoMemory>
    ensures { IfOk result (λ n. n ≡ words items.now) }
{
    let mut total = 0;
    for item in items {
        total = sum(total, item.size() as u32)?;
    }
    Ok(total)
}

// The branch over the end for want of arena, of so many instructions, where x7 is within the arena.
fn branch_over(count: u32) -> Result<Item, NoMemory>
    ensures { IfOk result (λ item. item ≡ s_item Bgeu 9 7 (pos (4 + 4 * count))) }
{
    if count < 0x1000_0000 {
        Ok(s(Bgeu, LIMIT, 7, (4 + 4 * count) as i32))
    } else {
        Err(NoMemory)
    }
}

/// The words of a block that stand in front of its fields.
fn extra_words(shape: Shape) -> u32
    ensures { result ≡ extra_words shape }
{
    match shape {
        Shape::ExnName(_) => 1,
        _ => 0,
    }
}

/// The words of so many fields.
pub(crate) fn count(fields: &[Source]) -> Result<u32, NoMemory>
    ensures { IfOk result (λ n. n ≡ length fields.now) }
{
    match u32::try_from(fields.len()) {
        Ok(n) => Ok(n),
        Err(_) => Err(NoMemory),
    }
}

/// The words of a block behind its header.
fn block_length(building: &Building) -> Result<u32, NoMemory>
    ensures { IfOk result (λ n. n ≡ block_length building.now) }
{
    sum(extra_words(building.shape), count(building.fields.items())?)
}

/// The words of a group.
pub fn group_words(buildings: &[Building]) -> Result<u32, NoMemory>
    ensures { IfOk result (λ n. n ≡ group_words buildings.now) }
{
    let mut total = 0;
    for building in buildings {
        total = sum(total, sum(block_length(building)?, 1)?)?;
    }
    Ok(total)
}

fn header(kind: u64, tag: u64, size: u32) -> u64
    requires kind { kind < 8 }
    requires tag { tag < 2 ^ 40 }
    ensures { result ≡ header kind tag size }
{
    (size as u64 * 0x1_0000_0000).wrapping_add(kind + 8 * tag)
}

fn header_of(labels: &Labels, shape: Shape, size: u32) -> u64
    ensures { result ≡ header_of labels.now shape size }
{
    match shape {
        Shape::Tuple => header(0, 0, size),
        Shape::Applied(number) => header(1, number as u64, size),
        Shape::Cell => header(3, 0, size),
        Shape::ExnName(_) => header(4, 0, size),
        Shape::Packet => header(5, 0, size),
        Shape::Closure(label) => header(6, label.0 as u64, size),
        Shape::ClassRecord(class) => header(6, labels.points as u64 + class as u64, size),
    }
}

// The end for want of arena: x12 gets the words of the block that has no room, which would begin so many words behind x8.
fn put_full_end(
    items: &mut Vec<Item>,
    labels: &Labels,
    offset: u32,
    size: u32,
) -> Result<(), NoMemory>
    ensures { OnOk result (items.new.items ≡ items.old.items ++ full_end labels.now offset size) }
{
    if offset != 0 {
        put_behind(items, FREE, FREE, 8 * offset as u64)?;
    }
    load(items, 12, size as u64)?;
    let label = routine_label(labels, Routine::Full)?;
    Ok(items.push(Item::Jump(label))?)
}

// x7 becomes the address behind the block, which is within the arena.
fn put_room(items: &mut Vec<Item>, labels: &Labels, offset: u32, size: u32) -> Result<(), NoMemory>
    ensures { OnOk result (items.new.items ≡ items.old.items ++ room labels.now offset size) }
{
    let mut end = Vec::new(*items.allocator());
    put_full_end(&mut end, labels, offset, size)?;
    let branch = branch_over(words(end.as_slice())?)?;
    put_behind(items, 7, FREE, 8 * (offset as u64 + size as u64))?;
    items.push(branch)?;
    items.extend_from_slice(end.as_slice())?;
    Ok(())
}

fn put_header(items: &mut Vec<Item>, offset: u32, header: u64) -> Result<(), NoMemory>
    ensures { OnOk result (items.new.items ≡ items.old.items ++ header_put offset header) }
{
    load(items, 5, header)?;
    store_word(items, FREE, 5, 8 * offset as u64)
}

fn put_spelling(
    items: &mut Vec<Item>,
    labels: &Labels,
    offset: u32,
    shape: Shape,
) -> Result<(), NoMemory>
    ensures { OnOk result (items.new.items ≡ items.old.items ++ spelling_put labels.now offset shape) }
{
    match shape {
        Shape::ExnName(spelling) => {
            let label = sum(labels.spellings, spelling)?;
            items.push(Item::Address(5, label))?;
            store_word(items, FREE, 5, 8 * offset as u64)
        }
        _ => Ok(()),
    }
}

fn put_field(
    items: &mut Vec<Item>,
    labels: &Labels,
    offset: u32,
    field: &Source,
) -> Result<(), NoMemory>
    ensures { OnOk result (items.new.items ≡ items.old.items ++ (got labels.now 5 field.now ++ word_stored 8 (where_got 5 field.now) (8 * offset))) }
{
    let a = get(items, labels, 5, field)?;
    store_word(items, FREE, a, 8 * offset as u64)
}

fn put_fields(
    items: &mut Vec<Item>,
    labels: &Labels,
    first: u32,
    fields: &[Source],
) -> Result<(), NoMemory>
    ensures { OnOk result (items.new.items ≡ items.old.items ++ fields_put labels.now first fields.now) }
{
    let mut offset = first;
    for field in fields {
        put_field(items, labels, offset, field)?;
        offset = sum(offset, 1)?;
    }
    Ok(())
}

// The block so many words behind x8, of so many words behind its header.
fn put_block(
    items: &mut Vec<Item>,
    labels: &Labels,
    offset: u32,
    building: &Building,
    size: u32,
) -> Result<(), NoMemory>
    requires { size ≡ block_length building.now }
    ensures { OnOk result (items.new.items ≡ items.old.items ++ block_put labels.now offset building.now) }
{
    let shape = building.shape;
    put_room(items, labels, offset, sum(size, 1)?)?;
    put_header(items, offset, header_of(labels, shape, size))?;
    let first = sum(offset, 1)?;
    put_spelling(items, labels, first, shape)?;
    put_fields(
        items,
        labels,
        sum(first, extra_words(shape))?,
        building.fields.items(),
    )
}

fn put_group(
    items: &mut Vec<Item>,
    labels: &Labels,
    buildings: &[Building],
) -> Result<u32, NoMemory>
    ensures words { IfOk result (λ n. n ≡ group_words buildings.now) }
    ensures items { OnOk result (items.new.items ≡ items.old.items ++ group_put labels.now 0 buildings.now) }
{
    let mut offset = 0;
    for building in buildings {
        let size = block_length(building)?;
        put_block(items, labels, offset, building, size)?;
        offset = sum(offset, sum(size, 1)?)?;
    }
    Ok(offset)
}

/// The blocks of a group, and then the next free byte is behind them. The answer are their words.
pub fn make(items: &mut Vec<Item>, labels: &Labels, buildings: &[Building]) -> Result<u32, NoMemory>
    ensures words { IfOk result (λ n. n ≡ group_words buildings.now) }
    ensures items { OnOk result (items.new.items ≡ items.old.items ++ made labels.now buildings.now) }
{
    let size = put_group(items, labels, buildings)?;
    put_behind(items, FREE, FREE, 8 * size as u64)?;
    Ok(size)
}

fn fill(items: &mut Vec<Item>, count: u32) -> Result<(), NoMemory>
    ensures { OnOk result (items.new.items ≡ items.old.items ++ filled count 1) }
{
    for k in 0..count {
        store_word(items, FREE, 5, 8 * (k as u64 + 1))?;
    }
    Ok(())
}

/// The body's spill record of so many words.
pub fn make_frame(items: &mut Vec<Item>, labels: &Labels, count: u32) -> Result<(), NoMemory>
    ensures { OnOk result (items.new.items ≡ items.old.items ++ framed labels.now count) }
{
    put_room(items, labels, 0, sum(count, 1)?)?;
    put_header(items, 0, header(6, 0x1fff_ffff, count))?;
    items.push(i(Addi, 5, 0, 1))?;
    fill(items, count)?;
    put_moved(items, FRAME, FREE)?;
    put_behind(items, FREE, FREE, 8 * (count as u64 + 1))
}
