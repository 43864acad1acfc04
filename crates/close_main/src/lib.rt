//! The bodies and functions of a closed program, by number and by label, are the definition's. No code.
//!
//! It stands on `close_seen` for what bodies see, on `close_labels` for functions by label, on `close_rows`, `close_names` and `close_decisions`, on `closure_plan` for points that are different, and on what these stand on. Its main contract: `programs_are_closed`: in a slim program the bodies that are closed one after another, and the functions in the slots of their labels, make exactly the definition's closed program.
#![tactic(auto)]

ghost use Rattle.close_main.specs.Main.{ProgramsAreClosed};

/// The bodies of a slim program, closed by its tables, and its functions by label are the definition's.
pub fn programs_are_closed()
    ensures { ProgramsAreClosed }
{}
