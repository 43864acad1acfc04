//! What closing makes of atoms, tests, single bindings and ends, where a body sees its variables in scopes.
//!
//! It stands on `close_laws` for the definitions and on `close_scopes`, and on what these stand on. Its main contract: `lower_end` answers exactly what the definition leaves of an end, by the numbers of its bodies.
//!
//! What is decided of functions and classes stands in tables (`decisions`), and what a body sees in two scopes (`environment`).
#![tactic(auto)]

ghost use Rattle.close_steps.specs.Lowered.{EndsAreLowered};

pub mod atoms;
pub mod binds;
pub mod decisions;
pub mod ends;
pub mod environment;

pub use atoms::{operand, operands};
pub use binds::{lower_make, lower_pick, lower_prim, lower_set_handler, see_itself};
pub use decisions::{Decision, Decisions};
pub use ends::lower_end;
pub use environment::Environment;

/// Where the bodies of its rules are what the definition makes of theirs, an end by number is what it makes of the end.
pub fn ends_are_lowered()
    ensures { EndsAreLowered }
{}
