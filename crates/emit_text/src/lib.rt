//! The text of a program: where it starts, the routines, and the code of its functions, with their labels.
//!
//! It stands on `emit_bodies` for the code of functions, on `emit_sound`, on `rt_prims` for the routines, on `rv_asm`, and on what these stand on. Its main contract: `put_program` makes exactly the program of assembler that `specs/Text.antt` says, with the labels of data still to be bound, or wants memory.
//!
//! All labels are made before the first item, but for those of the routines, which make their own. So the routines stand in front, behind a jump.
#![tactic(auto)]

pub mod functions;
pub mod labels;
pub mod put;
pub mod whole;

pub use labels::labels_of;
pub use whole::put_program;
