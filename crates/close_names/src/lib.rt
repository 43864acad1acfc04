//! The functions of a `Cps` program by number are known by their names and by their points. No code.
//!
//! It stands on `close_rows`, on `closed_functions` for names that stand once, on `closure_layouts` for points that do, and on what these stand on. Its main contract: `programs_are_bound`: the design of a program knows each function of each of its bodies by its name.
#![tactic(auto)]

ghost use Rattle.close_names.specs.Names.{FunctionsAreAt, ProgramsAreBound};

/// The design of a program knows the functions of all its bodies.
pub fn programs_are_bound()
    ensures { ProgramsAreBound }
{}

/// Where functions have different points, the name at each one's point is its own.
pub fn functions_are_at()
    ensures { FunctionsAreAt }
{}
