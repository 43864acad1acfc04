//! The pass `emit`: the image of a placed program.
//!
//! It stands on `emit_text` for the text, on `emit_data` for the static blocks and the places of data, on `rv_asm`, on `plan_text`, on `elf_static` for images, and on what these stand on. Its main contract: `emit` answers exactly the image that `specs/Image.antt` says, which is laid out, or wants memory.
#![tactic(auto)]

pub mod image;
pub mod laying;
pub mod rows;

pub use image::emit;
