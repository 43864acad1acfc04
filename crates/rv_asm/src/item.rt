//! What a program is made of.

ghost use Rattle.std.specs.Prelude.{◌≡◌};
ghost use Rattle.rv_asm.specs.Item.{size};

use rv_isa::Ins;

/// A part of a program. A label is named by its number.
#[derive(Clone, Copy, Debug, PartialEq, Eq)]
pub enum Item {
    /// One instruction.
    Plain(Ins),
    /// A jump to a label: AUIPC and JALR, through x31.
    Jump(u32),
    /// A register becomes the address of a label: AUIPC and ADDI.
    Address(u8, u32),
}

impl Item {
    /// How many instructions it is.
    pub fn size(self) -> u64
        ensures { result ≡ size self }
    {
        match self {
            Item::Plain(_) => 1,
            Item::Jump(_) | Item::Address(_, _) => 2,
        }
    }
}
