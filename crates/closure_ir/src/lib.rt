//! The language `Closed`, programs of code with a label for each function, and its machine: what a function holds stands in its closure and in the class records that closures share, and names are local to a body.
//!
//! It stands on `prim_meaning` for primitives and tests, on `sml_def`, `sml_tree`, `simulation` and `smlc_base`. Its main contract: the type `Closed` keeps that each body stands in one place of the program, that its labels are in the order of their points, and that what is cited stands there.
//!
//! Bodies stand in a row by number (`body`). `specs/Code.antt` is the same language as a tree, which the definitions and laws speak of, and `specs/Program.antt` says which trees a program is; `specs/Kept.antt` what a program keeps; `specs/Words.antt` the words and cells of the machine, `specs/Answers.antt` how it sees them and what primitives come to, `specs/Step.antt` and `specs/Run.antt` the machine, and `specs/Order.antt` what it is that class records are made with the closures that name them.
#![tactic(auto)]

ghost use Rattle.std.specs.Prelude.{ℕ, List};
ghost use Rattle.simulation.specs.Keeps.{NamesAtOnce};
ghost use Rattle.closure_ir.specs.Code.{Tree};
ghost use Rattle.closure_ir.specs.Order.{IsOrderly};
ghost use Rattle.closure_ir.specs.Run.{closed_run};

pub mod body;
pub mod operand;
pub mod program;

pub use body::{Bind, Body, End, Function, Maker, Rule, Target, Test, Wanted};
pub use operand::{Operand, Shape, Static, Variable};
pub use program::Closed;

/// Class records of an orderly program are named at each moment.
pub fn records_are_named()
    ensures { (p : Tree) (input : List ℕ) → IsOrderly p → NamesAtOnce (closed_run p input) }
{}
