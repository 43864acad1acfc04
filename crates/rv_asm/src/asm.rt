//! A program in the making.

ghost use Rattle.std.specs.Prelude.{◌≡◌, ◌<◌, length, IfOk, OnOk, OnErr};
ghost use Rattle.rv_isa.specs.Word.{Fits};
ghost use Rattle.rv_asm.specs.Item.{IsSound, IsNear};
ghost use Rattle.rv_asm.specs.Program.{Program, empty, with_item, with_label, with_place, with_place_at, IsMade, IsFree, IsReady};
ghost use Rattle.rv_asm.specs.Layout.{code_of, bytes_of, addresses, AllStand};

use crate::code::Code;
use crate::item::Item;
use crate::layout;
use rv_isa::Ins;
use smlc_base::{NoMemory, Row};
use std::alloc::Global;
use std::marker::Model;

/// A program in the making. Contracts see its items and, for each label, how many instructions stand
/// before it, once it is bound. Want of memory leaves it as it was.
#[derive(Drop)]
pub struct Asm {
    items: Vec<Item>,
    places: Vec<Option<u64>>,
    words: u64,
}

impl Model for Asm {
    ghost use Rattle.rv_asm.specs.Program.{Program};

    ghost Value = { Program };

    ghost use Rattle.rv_asm.specs.Whole.{IsWhole};

    ghost view = { λ a. record { items = a.items.items; places = a.places.items } };

    ghost invariant = { λ a. IsWhole a.items.items a.places.items a.words };
}

impl Asm {
    /// The empty program. It takes no memory.
    pub fn new(alloc: Global) -> Asm
        ensures { result ≡ empty }
    {
        Asm {
            items: Vec::new(alloc),
            places: Vec::new(alloc),
            words: 0,
        }
    }

    /// A new label, which isn't bound. Labels are numbered from 0. There is no memory for more than
    /// 2^32 of them.
    pub fn label(&mut self) -> Result<u32, NoMemory>
        ensures number { IfOk result (λ label. label ≡ length self.old.places) }
        ensures ok { OnOk result (self.new ≡ with_label self.old) }
        ensures err { OnErr result (self.new ≡ self.old) }
    {
        let label = self.places.len();
        if label > u32::MAX as usize {
            return Err(NoMemory);
        }
        self.places.push(None)?;
        Ok(label as u32)
    }

    /// Puts the item last.
    fn push(&mut self, item: Item) -> Result<(), NoMemory>
        requires { IsSound (length self.old.places) item }
        ensures ok { OnOk result (self.new ≡ with_item self.old item) }
        ensures err { OnErr result (self.new ≡ self.old) }
    {
        self.items.push(item)?;
        self.words += item.size();
        Ok(())
    }

    /// Puts the instruction last.
    pub fn ins(&mut self, ins: Ins) -> Result<(), NoMemory>
        requires { Fits ins }
        ensures ok { OnOk result (self.new ≡ with_item self.old (Item.Plain ins)) }
        ensures err { OnErr result (self.new ≡ self.old) }
    {
        self.push(Item::Plain(ins))
    }

    /// Puts a jump to the label last: AUIPC and JALR, through x31, which it changes.
    pub fn jump(&mut self, label: u32) -> Result<(), NoMemory>
        requires { IsMade self.old label }
        ensures ok { OnOk result (self.new ≡ with_item self.old (Item.Jump label)) }
        ensures err { OnErr result (self.new ≡ self.old) }
    {
        self.push(Item::Jump(label))
    }

    /// Puts last what makes the register the address of the label: AUIPC and ADDI. x0 stays 0.
    pub fn address(&mut self, rd: u8, label: u32) -> Result<(), NoMemory>
        requires register { rd < 32 }
        requires made { IsMade self.old label }
        ensures ok { OnOk result (self.new ≡ with_item self.old (Item.Address rd label)) }
        ensures err { OnErr result (self.new ≡ self.old) }
    {
        self.push(Item::Address(rd, label))
    }

    /// Binds the label behind the last item. It takes no memory.
    pub fn bind(&mut self, label: u32)
        requires { IsFree self.old label }
        ensures { self.new ≡ with_place self.old label }
    {
        self.places[label as usize] = Some(self.words);
    }

    /// Binds the label to the place behind so many instructions, which may lie behind the program: so
    /// data that stand behind it have labels too. It takes no memory.
    pub fn bind_at(&mut self, label: u32, place: u64)
        requires free { IsFree self.old label }
        requires near { IsNear place }
        ensures { self.new ≡ with_place_at self.old label place }
    {
        self.places[label as usize] = Some(place);
    }

    /// The program laid out at the address. It takes time in proportion to the program.
    pub fn finish(self, base: u64) -> Result<Code, NoMemory>
        requires { IsReady self base }
        ensures bytes { IfOk result (λ code. code.bytes ≡ bytes_of (code_of self)) }
        ensures addresses { IfOk result (λ code. code.at ≡ addresses base self.places) }
        ensures stands { IfOk result (λ code. AllStand base code self.items) }
    {
        let alloc = *self.items.allocator();
        let bytes = layout::bytes_of(alloc, &self.items, &self.places)?;
        let at = layout::addresses(alloc, base, &self.places)?;
        Ok(Code {
            bytes: Row::from_vec(bytes),
            at: Row::from_vec(at),
        })
    }
}
