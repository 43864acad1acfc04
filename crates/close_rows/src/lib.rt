//! Bodies by number that are closed one after another, as a loop closes them. No code.
//!
//! It stands on `close_bodies` and `close_entries`, on `cps_free` and `closed_live` for the trees of rows, and on what these stand on. Its main contract: `all_are_lowered`: where each body is closed by what it sees, and the bodies of its rules see what is seen at its end, the tree of each is what the definition makes of its tree.
#![tactic(auto)]

ghost use Rattle.close_rows.specs.Rows.{AllAreLowered, MainIsLowered, RoutinesAreLowered};

/// Where each body is closed by what it sees, its tree is what the definition makes of its tree.
pub fn all_are_lowered()
    ensures { AllAreLowered }
{}

/// A function with such a body is the definition's, where the body sees what it enters with.
pub fn routines_are_lowered()
    ensures { RoutinesAreLowered }
{}

/// What is run first is the definition's, where its body sees nothing at its beginning.
pub fn main_is_lowered()
    ensures { MainIsLowered }
{}
