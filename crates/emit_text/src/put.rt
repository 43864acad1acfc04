//! Items put into a program.

ghost use Rattle.std.specs.Prelude.{◌≡◌, length, OnOk};
ghost use Rattle.std.specs.List.{All};
ghost use Rattle.rv_asm.specs.Item.{IsSound};
ghost use Rattle.rv_asm.specs.Program.{with_item};
ghost use Rattle.emit_text.specs.Bound.{with_items};

use rv_asm::{Asm, Item};
use smlc_base::NoMemory;

fn put_item(asm: &mut Asm, item: Item) -> Result<(), NoMemory>
    requires { IsSound (length asm.old.places) item }
    ensures { OnOk result (asm.new ≡ with_item asm.old item) }
{
    match item {
        Item::Plain(ins) => asm.ins(ins),
        Item::Jump(label) => asm.jump(label),
        Item::Address(rd, label) => asm.address(rd, label),
    }
}

/// Puts the items last.
///
/// # Errors
///
/// Want of memory.
pub fn put_items(asm: &mut Asm, items: &[Item]) -> Result<(), NoMemory>
    requires { All (IsSound (length asm.old.places)) items.now }
    ensures { OnOk result (asm.new ≡ with_items asm.old items.now) }
{
    for item in items {
        put_item(asm, *item)?;
    }
    Ok(())
}
