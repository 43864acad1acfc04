//! The language `Lambda` and its machine: the bare tree with tests in place of patterns, and without types.
//!
//! It stands on `sml_def` for values and blocks, on `prim_meaning` for primitives and tests, on `sml_tree`, `simulation` and `smlc_base`. A term has the number of the node that it comes from. Its main contract: the type `Lambda` keeps that a program is numbered and closed, that each name is bound once, and that what is cited stands there.
//!
//! `specs/Program.antt` is what contracts see of a program and `specs/Kept.antt` what it keeps, `specs/Free.antt` its free variables, `specs/State.antt`, `specs/Step.antt` and `specs/Run.antt` the machine, and `specs/Proper.antt` in which states it has a step at all.
#![tactic(auto)]

pub mod program;
pub mod term;

pub use program::Lambda;
pub use term::{Bind, Case, Part, Term};
