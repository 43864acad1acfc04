//! What closing makes of a body by number, where what it sees at its beginning is known.
//!
//! It stands on `close_groups`, `close_steps` and `close_scopes`, and on what these stand on. Its main contract: `lower_body` answers exactly the body that the definition leaves and what is seen at its end, which is what the bodies of its rules see; `bodies_are_lowered`: the tree is the definition's, if theirs are.
#![tactic(auto)]

ghost use Rattle.close_bodies.specs.Bodies.{BodiesAreLowered};

pub mod binds;
pub mod body;

pub use body::{Lowered, lower_body};

/// A body by number is what the definition makes of it, where the bodies of its rules are.
pub fn bodies_are_lowered()
    ensures { BodiesAreLowered }
{}
