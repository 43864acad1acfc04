//! The language `Cps`, programs in continuation-passing style, and its machine: functions, handlers and continuations are blocks alike, and a body ends in a jump.
//!
//! It stands on `sml_def` for values and blocks, on `prim_meaning` for primitives and tests, on `sml_tree`, `simulation` and `smlc_base`. Its main contract: the type `Cps` keeps that the bodies of a program make one tree, that each variable is bound once and used in the scope of its binding, and that what is cited stands there.
//!
//! Bodies stand in a row by number (`body`), so that nothing recurses by the length of a program. `specs/Code.antt` is the same language as a tree, which the definitions and laws speak of, and `specs/Program.antt` says which tree a program is; `specs/Kept.antt` what a program keeps, `specs/Free.antt` its free variables and points, `specs/Slim.antt` how much its functions hold, and `specs/State.antt`, `specs/Tests.antt`, `specs/Step.antt` and `specs/Run.antt` the machine.
#![tactic(auto)]

pub mod atom;
pub mod body;
pub mod program;

pub use atom::{Atom, Constant, Shape, Test, Variable, Wanted};
pub use body::{Bind, Body, End, Function, Rule};
pub use program::Cps;
