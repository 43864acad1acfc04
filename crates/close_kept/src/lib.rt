//! What the program keeps that closing makes. No code.
//!
//! It stands on `close_main` for the functions of a program, on `close_seen` and `close_labels` for what is made, and on what these stand on. Its main contract: `programs_are_kept`: what is made of a slim program by its tables is a program of `Closed`: each body stands in one place, labels are in the order of their points, and what is cited stands there and in its range.
#![tactic(auto)]

ghost use Rattle.close_kept.specs.Kept.{ProgramsAreKept};

/// What is made of a slim program by its tables keeps what a program of `Closed` does.
pub fn programs_are_kept()
    ensures { ProgramsAreKept }
{}
