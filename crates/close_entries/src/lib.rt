//! What a function's body sees at its beginning: its parameters, itself, and what its closure has, some of it through the records of classes.
//!
//! It stands on `close_groups`, `close_steps` and `close_scopes`, and on what these stand on. Its main contract: `enter` makes exactly this scope; `functions_are_entered`: it is what the definition gives the body.
#![tactic(auto)]

ghost use Rattle.close_entries.specs.Entries.{FunctionsAreEntered};

pub mod entry;

pub use entry::enter;

/// A function is what its body comes to, where that sees what is entered.
pub fn functions_are_entered()
    ensures { FunctionsAreEntered }
{}
