//! What a round of contraction leaves of a binding of one variable, and what it enters in its tables.
//!
//! It stands on `contract_known`, `contract_frame`, `contract_census`, `contract_round` and `cps_ir`, and on what these stand on. Its main contract: `make_walks`, `pick_walks` and `prim_walks`: what `walk_make`, `walk_pick` and `walk_prim` leave, in front of the walk of what stands behind by the tables as they are then, is the walk of the whole by the tables as they were.
#![tactic(auto)]

ghost use Rattle.contract_binds.specs.Law.{MakeWalks, PickWalks, PrimWalks};

pub mod binds;

pub use binds::{walk_make, walk_pick, walk_prim};

/// A new block.
pub fn make_walks()
    ensures { MakeWalks }
{}

/// A field of a block.
pub fn pick_walks()
    ensures { PickWalks }
{}

/// The result of a primitive.
pub fn prim_walks()
    ensures { PrimWalks }
{}
