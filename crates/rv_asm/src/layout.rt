//! From the items of a program to bytes and addresses.

ghost use Rattle.std.specs.Prelude.{◌≡◌, ◌<◌, ◌≤◌, [], ◌∷◌, ◌++◌, ◌^◌, length, IfOk, OnOk, IsSome, IfSome};
ghost use Rattle.std.specs.List.{All};
ghost use Rattle.std.specs.Int.{w32, to_le_bytes};
ghost use Rattle.rv_isa.specs.Word.{Fits, word_of};
ghost use Rattle.rv_asm.specs.Item.{words, IsSound, IsNear};
ghost use Rattle.rv_asm.specs.Layout.{place_of, code_at, code_from, bytes_of, addresses};

use crate::item::Item;
use crate::pair::Pair;
use rv_isa::{Ins, Op, encode};
use smlc_base::NoMemory;
use std::alloc::Global;

/// The place of a label.
fn place_of(places: &[Option<u64>], label: u32) -> u64
    requires made { label < length places.now }
    requires bound { All IsSome places.now }
    requires placed { All (λ place. IfSome place IsNear) places.now }
    ensures value { result ≡ place_of places.now label }
    ensures near { IsNear result }
{
    match places[label as usize] {
        Some(place) => place,
        None => unreachable!(),
    }
}

/// Puts the instruction's four bytes last.
fn write_ins(bytes: &mut Vec<u8>, ins: Ins) -> Result<(), NoMemory>
    requires { Fits ins }
    ensures { OnOk result (bytes.new.items ≡ bytes.old.items ++ to_le_bytes w32 (word_of ins)) }
{
    bytes.extend_from_slice(&encode(ins).to_le_bytes())?;
    Ok(())
}

/// Puts the two instructions last.
fn write_pair(bytes: &mut Vec<u8>, first: Ins, second: Ins) -> Result<(), NoMemory>
    requires first { Fits first }
    requires second { Fits second }
    ensures { OnOk result (bytes.new.items ≡ bytes.old.items ++ bytes_of (first ∷ second ∷ [])) }
{
    write_ins(bytes, first)?;
    write_ins(bytes, second)
}

/// Puts the item's instructions last, where `here` instructions stand before it.
fn write_item(
    bytes: &mut Vec<u8>,
    item: Item,
    here: u64,
    places: &[Option<u64>],
) -> Result<(), NoMemory>
    requires sound { IsSound (length places.now) item }
    requires bound { All IsSome places.now }
    requires placed { All (λ place. IfSome place IsNear) places.now }
    requires here { IsNear here }
    ensures { OnOk result (bytes.new.items ≡ bytes.old.items ++ bytes_of (code_at places.now here item)) }
{
    match item {
        Item::Plain(ins) => write_ins(bytes, ins),
        Item::Jump(label) => {
            let pair = Pair::between(here, place_of(places, label));
            let first = Ins::u_type(Op::Auipc, 31, pair.upper);
            let second = Ins::i_type(Op::Jalr, 0, 31, pair.lower);
            write_pair(bytes, first, second)
        }
        Item::Address(rd, label) => {
            let pair = Pair::between(here, place_of(places, label));
            let first = Ins::u_type(Op::Auipc, rd, pair.upper);
            let second = Ins::i_type(Op::Addi, rd, rd, pair.lower);
            write_pair(bytes, first, second)
        }
    }
}

/// The bytes of the items.
pub fn bytes_of(alloc: Global, items: &[Item], places: &[Option<u64>]) -> Result<Vec<u8>, NoMemory>
    requires sound { All (IsSound (length places.now)) items.now }
    requires bound { All IsSome places.now }
    requires placed { All (λ place. IfSome place IsNear) places.now }
    requires near { IsNear (words items.now) }
    ensures { IfOk result (λ bytes. bytes.items ≡ bytes_of (code_from places.now 0 items.now)) }
{
    let mut bytes = Vec::new(alloc);
    let mut here = 0;
    for item in items {
        write_item(&mut bytes, *item, here, places)?;
        here += item.size();
    }
    Ok(bytes)
}

/// The addresses of the labels in code that begins at `base`.
pub fn addresses(alloc: Global, base: u64, places: &[Option<u64>]) -> Result<Vec<u64>, NoMemory>
    requires bound { All IsSome places.now }
    requires placed { All (λ place. IfSome place IsNear) places.now }
    requires base { base ≤ 2 ^ 63 }
    ensures { IfOk result (λ at. at.items ≡ addresses base places.now) }
{
    let mut at = Vec::new(alloc);
    for place in places {
        match place {
            Some(place) => at.push(base + 4 * *place)?,
            None => unreachable!(),
        }
    }
    Ok(at)
}
