//! Programs of instructions and labels, and their bytes at an address: jumps to labels and addresses of labels, however far.
//!
//! It stands on `rv_isa` and `smlc_base`. Its main contract: in what `Asm::finish` answers each instruction stands at its place, each jump and address arrives at its label, and the addresses of the labels stand beside.
#![tactic(auto)]

pub mod asm;
pub mod code;
pub mod item;
mod layout;
mod pair;

pub use asm::Asm;
pub use code::Code;
pub use item::Item;
