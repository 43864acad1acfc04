//! The tests of a rule.

ghost use Rattle.std.specs.Prelude.{◌≡◌, ◌<◌, ◌++◌, IfOk, OnOk};
ghost use Rattle.emit_items.specs.Tests.{leap, fails, number_wanted, block_wanted, applied_wanted, scalar_wanted, tag_wanted, name_register, name_got, text_wanted, name_wanted, wanted, walked, walk_register, tested, all_tested};

use crate::constants::load;
use crate::items::{i, put_moved, s, u};
use crate::making::words;
use crate::numbers::{lower, scalar, sum, upper_immediate};
use crate::primitives::put_link;
use crate::reading::{field_bytes, follow, get, load_word};
use emit_items::Labels;
use placed_ir::{Source, Test, Wanted};
use rt_prims::Routine;
use rv_asm::Item;
use rv_isa::Op::{Addi, Andi, Auipc, Beq, Bne, Jalr, Ld, Lwu};
use smlc_base::{NoMemory, Tag};

fn leap(items: &mut Vec<Item>, bytes: u64) -> Result<(), NoMemory>
    requires { bytes < 18446744073709549568 }
    ensures { OnOk result (items.new.items ≡ items.old.items ++ leap bytes) }
{
    items.push(u(Auipc, 31, upper_immediate(bytes)))?;
    Ok(items.push(i(Jalr, 0, 31, lower(bytes)))?)
}

// Where the two differ all goes on behind so many instructions more.
fn put_fails(items: &mut Vec<Item>, a: u8, b: u8, after: u32) -> Result<(), NoMemory>
    ensures { OnOk result (items.new.items ≡ items.old.items ++ fails a b after) }
{
    if after < 1023 {
        return Ok(items.push(s(Bne, a, b, (4 * (after + 1)) as i32))?);
    }
    items.push(s(Beq, a, b, 12))?;
    leap(items, 4 * (after as u64 + 2))
}

fn want_number(items: &mut Vec<Item>, number: u32, a: u8, after: u32) -> Result<(), NoMemory>
    ensures { OnOk result (items.new.items ≡ items.old.items ++ number_wanted number a after) }
{
    items.push(i(Lwu, 7, a, 0))?;
    load(items, 31, 1 + 8 * number as u64)?;
    put_fails(items, 7, 31, after)
}

fn want_block(items: &mut Vec<Item>, tag: Tag, a: u8, after: u32) -> Result<(), NoMemory>
    ensures { OnOk result (items.new.items ≡ items.old.items ++ block_wanted tag a after) }
{
    if tag.other_takes {
        want_number(items, tag.number, a, after)
    } else {
        Ok(())
    }
}

fn want_applied(items: &mut Vec<Item>, tag: Tag, a: u8, after: u32) -> Result<(), NoMemory>
    ensures { OnOk result (items.new.items ≡ items.old.items ++ applied_wanted tag a after) }
{
    let mut block = Vec::new(*items.allocator());
    want_block(&mut block, tag, a, after)?;
    if tag.other_bare {
        let rest = sum(after, words(block.as_slice())?)?;
        items.push(i(Andi, 7, a, 1))?;
        put_fails(items, 7, 0, rest)?;
    }
    items.extend_from_slice(block.as_slice())?;
    Ok(())
}

fn want_scalar(items: &mut Vec<Item>, word: u64, a: u8, after: u32) -> Result<(), NoMemory>
    ensures { OnOk result (items.new.items ≡ items.old.items ++ scalar_wanted word a after) }
{
    load(items, 7, word)?;
    put_fails(items, a, 7, after)
}

fn want_tag(items: &mut Vec<Item>, tag: Tag, a: u8, after: u32) -> Result<(), NoMemory>
    ensures { OnOk result (items.new.items ≡ items.old.items ++ tag_wanted tag a after) }
{
    if tag.takes {
        want_applied(items, tag, a, after)
    } else {
        want_scalar(items, 1 + 2 * tag.number as u64, a, after)
    }
}

fn want_text(
    items: &mut Vec<Item>,
    labels: &Labels,
    text: u32,
    a: u8,
    after: u32,
) -> Result<(), NoMemory>
    ensures { OnOk result (items.new.items ≡ items.old.items ++ text_wanted labels.now text a after) }
{
    put_moved(items, 5, a)?;
    let label = sum(labels.texts, text)?;
    items.push(Item::Address(6, label))?;
    put_link(items, labels, Routine::Compare)?;
    items.push(i(Addi, 5, 5, -3))?;
    put_fails(items, 5, 0, after)
}

// The answer is the register that has the name.
fn get_name(items: &mut Vec<Item>, applied: bool, a: u8) -> Result<u8, NoMemory>
    ensures register { IfOk result (λ r. r ≡ name_register applied a) }
    ensures items { OnOk result (items.new.items ≡ items.old.items ++ name_got applied a) }
{
    if applied {
        items.push(i(Ld, 5, a, 8))?;
        Ok(5)
    } else {
        Ok(a)
    }
}

fn want_name(
    items: &mut Vec<Item>,
    labels: &Labels,
    name: &Source,
    applied: bool,
    a: u8,
    after: u32,
) -> Result<(), NoMemory>
    ensures { OnOk result (items.new.items ≡ items.old.items ++ name_wanted labels.now name.now applied a after) }
{
    let own = get_name(items, applied, a)?;
    let wanted = get(items, labels, 6, name)?;
    put_fails(items, own, wanted, after)
}

fn want(
    items: &mut Vec<Item>,
    labels: &Labels,
    want: &Wanted,
    a: u8,
    after: u32,
) -> Result<(), NoMemory>
    ensures { OnOk result (items.new.items ≡ items.old.items ++ wanted labels.now want.now a after) }
{
    match want {
        Wanted::Num(number) => want_scalar(items, scalar(*number), a, after),
        Wanted::Tag(tag) => want_tag(items, *tag, a, after),
        Wanted::Text(text) => want_text(items, labels, *text, a, after),
        Wanted::Exn { name, applied } => want_name(items, labels, name, *applied, a, after),
    }
}

// From the register along a way. The answer is the register that has what stands there.
fn walk(items: &mut Vec<Item>, a: u8, steps: &[u32]) -> Result<u8, NoMemory>
    ensures register { IfOk result (λ r. r ≡ walk_register a steps.now) }
    ensures items { OnOk result (items.new.items ≡ items.old.items ++ walked a steps.now) }
{
    match steps {
        [] => Ok(a),
        [step, rest @ ..] => {
            load_word(items, 5, a, field_bytes(*step))?;
            follow(items, 5, rest)?;
            Ok(5)
        }
    }
}

/// A test of the subject. Where it fails all goes on behind so many instructions more.
pub fn test_one(
    items: &mut Vec<Item>,
    labels: &Labels,
    subject: &Source,
    test: &Test,
    after: u32,
) -> Result<(), NoMemory>
    ensures { OnOk result (items.new.items ≡ items.old.items ++ tested labels.now subject.now test.now after) }
{
    let a = get(items, labels, 5, subject)?;
    let end = walk(items, a, test.path.steps())?;
    want(items, labels, &test.want, end, after)
}
