//! The run-time routines of emitted programs, as lines of assembler.
//!
//! It stands on `rv_asm`, `rv_isa` and `smlc_base`. Its main contract: `routines` puts exactly the lines that `specs/` lists behind a program, each routine under its label.
#![tactic(auto)]

mod ends;
mod equality;
pub mod labels;
pub mod line;
mod outside;
mod strings;
mod text;
mod writing;

pub use labels::RoutineLabels;
pub use line::{Datum, Line, Routine};
pub use text::routines;
