//! What is known at a place, in a round of contraction: which atom stands in the place of a variable, which blocks were made, and what they say of tests.
//!
//! It stands on `contract_round`, `contract_laws` and `cps_ir`, and on what these stand on. Its main contract: `tests_left` answers exactly the tests of a rule that the round's definition leaves, with their atoms in place.
#![tactic(auto)]

pub mod blocks;
pub mod places;
pub mod tests;

pub use blocks::{Block, at_end, known_field, known_shape};
pub use places::{atom_in, atoms_in};
pub use tests::{Left, tests_left};
