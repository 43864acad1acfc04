//! What closing makes of a group of functions: one step that makes the closures of those that have one, with the class records that they name and that aren't at hand.
//!
//! It stands on `close_steps` and `close_scopes`, and on what these stand on. Its main contract: `lower_group` answers exactly the blocks of a group and what is seen behind it; `groups_are_lowered`: these are the definition's.
//!
//! Which functions have a closure, and which records are to be made, is found first (`members`); then the blocks are written (`makers`), by what is seen while the group is made (`group`).
#![tactic(auto)]

ghost use Rattle.close_groups.specs.Group.{GroupsAreLowered};

pub mod group;
pub mod makers;
pub mod members;

pub use group::{Group, lower_group};
pub use members::themselves;

/// The blocks of a group by number, and what is seen behind it, are the definition's.
pub fn groups_are_lowered()
    ensures { GroupsAreLowered }
{}
