//! Items by the formats of their instructions.

ghost use Rattle.std.specs.Prelude.{◌≡◌, [], ◌∷◌, ◌++◌, OnOk};
ghost use Rattle.emit_items.specs.Items.{r_item, i_item, s_item, u_item, moved, value_register, is_saved, register_in};

use rv_asm::Item;
use rv_isa::Op::Addi;
use rv_isa::{Ins, Op};
use smlc_base::NoMemory;

/// rd, rs1, rs2.
pub(crate) fn r(op: Op, rd: u8, a: u8, b: u8) -> Item
    ensures { result ≡ r_item op rd a b }
{
    Item::Plain(Ins::r_type(op, rd, a, b))
}

/// rd, rs1 and the immediate.
pub(crate) fn i(op: Op, rd: u8, a: u8, immediate: i32) -> Item
    ensures { result ≡ i_item op rd a immediate }
{
    Item::Plain(Ins::i_type(op, rd, a, immediate))
}

/// rs1, rs2 and the immediate, of stores and branches.
pub(crate) fn s(op: Op, a: u8, b: u8, immediate: i32) -> Item
    ensures { result ≡ s_item op a b immediate }
{
    Item::Plain(Ins::s_type(op, a, b, immediate))
}

/// rd and the immediate.
pub(crate) fn u(op: Op, rd: u8, immediate: i32) -> Item
    ensures { result ≡ u_item op rd immediate }
{
    Item::Plain(Ins::u_type(op, rd, immediate))
}

/// The spill record of the body.
pub(crate) const FRAME: u8 = 2;
/// The next free byte of the arena.
pub(crate) const FREE: u8 = 8;
/// The end of the arena.
pub(crate) const LIMIT: u8 = 9;
/// The handler.
pub(crate) const HANDLER: u8 = 18;

/// The register of a value by its number.
pub(crate) fn value_register(k: u32) -> u8
    ensures { result ≡ value_register k }
{
    if k < 8 {
        10 + k as u8
    } else if k < 20 {
        11 + k as u8
    } else {
        0
    }
}

/// Whether this one's value has been saved.
pub(crate) fn is_saved(saved: Option<u32>, k: u32) -> bool
    ensures { result ≡ is_saved saved k }
{
    match saved {
        Some(j) => j == k,
        None => false,
    }
}

/// The same where the value of one has been saved in x5.
pub(crate) fn register_in(saved: Option<u32>, k: u32) -> u8
    ensures { result ≡ register_in saved k }
{
    if is_saved(saved, k) {
        5
    } else {
        value_register(k)
    }
}

/// The register gets what another has.
pub(crate) fn put_moved(items: &mut Vec<Item>, rd: u8, a: u8) -> Result<(), NoMemory>
    ensures { OnOk result (items.new.items ≡ items.old.items ++ moved rd a) }
{
    if rd == a {
        Ok(())
    } else {
        Ok(items.push(i(Addi, rd, a, 0))?)
    }
}
