//! That the code of placed programs can be assembled. No code.
//!
//! It stands on `emit_items` for the code, on `placed_ir` for what a program keeps, on `rv_asm`, and on what these stand on. Its main contract: `code_is_sound`: each item of a function's code has instructions, where the labels of all that the program may cite were made.
//!
//! An item has instructions where its instruction is one of the manual's, and where the label of a jump or an address is one of those that were made. So what is shown is that registers are among 32, that each immediate is in the range of its format, and that labels are where `specs/Sound.antt` wants them.
#![tactic(auto)]

ghost use Rattle.emit_sound.specs.Sound.{CodeIsSound};

/// Each item of a function's code has instructions.
pub fn code_is_sound()
    ensures { CodeIsSound }
{}
