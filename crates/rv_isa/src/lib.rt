//! The RISC-V instructions of RV64IM: an instruction as its 32-bit word, and back.
//!
//! It stands on the standard library alone. Its main contract: `decode` answers an instruction exactly where that instruction fits its format and encodes to the word.
#![tactic(auto)]

pub mod table;
pub mod word;

pub use table::{Format, Op, Shape};
pub use word::{Ins, decode, encode, fits};
