//! The language `Placed`, closed programs whose values stand in 20 registers and in words of spill records, and its machine over an arena of words.
//!
//! It stands on `closure_ir`, whose words, blocks and primitives it has, and on what that stands on. Its main contract: the type `Placed` keeps that each body stands in one place of the program, that its labels are in the order of their points, and that what is cited stands there; what placing keeps is in `place_laws`.
//!
//! Bodies stand in a row by number (`body`). `specs/Code.antt` is the same language as a tree, which the definitions and laws speak of, and `specs/Program.antt` says which tree a program is; `specs/Kept.antt` what a program keeps; `specs/Arena.antt` the arena, the registers and how they are read; `specs/Step.antt` and `specs/Run.antt` the machine.
#![tactic(auto)]

pub mod body;
pub mod home;
pub mod program;
pub mod test;

pub use body::{Body, End, Function, Rule, Step};
pub use home::{Building, Home, Source};
pub use program::Placed;
pub use test::{Test, Wanted};
