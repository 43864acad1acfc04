//! What a round has in hand.

use contract_group::{Placed, Task};
use contract_known::Block;
use cps_ir::{Atom, Body};

/// The tables of a round, by variable: the atoms in the place of variables, the blocks that they are known to be, and the functions that are still to be
/// put where they are called. Then the bodies of the answer by number, and those of the argument that are still to be walked.
#[derive(Drop)]
pub struct Round {
    pub places: Vec<Atom>,
    pub blocks: Vec<Option<Block>>,
    pub placed: Vec<Option<Placed>>,
    pub bodies: Vec<Body>,
    pub work: Vec<Task>,
}
