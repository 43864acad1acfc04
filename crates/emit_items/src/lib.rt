//! What items of assembler each form of a placed program becomes.
//!
//! It stands on `rt_prims` for the routines, on `rv_asm`, `rv_isa` and `placed_ir`, and on what these stand on. It has no code but the labels. Its main contract is the definition: `specs/Body.antt` says which items the code of a program is, for every program of `Placed`.
//!
//! `specs/Constants.antt` and `specs/Reading.antt` say how words come into registers, `specs/Making.antt` how blocks are made, `specs/Primitives.antt`, `specs/Tests.antt` and `specs/Ends.antt` what primitives, tests of matches and ends of bodies become.
#![tactic(auto)]

pub mod labels;

pub use labels::Labels;
