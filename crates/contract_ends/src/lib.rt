//! What a round of contraction leaves of ends that only name atoms, and of a call in whose place no body is put.
//!
//! It stands on `contract_known`, `contract_round` and `cps_ir`, and on what these stand on. Its main contract: what `equal_left`, `throw_left` and `call_left` answer is the walk of the end (`IsEndLeft`, `IsCallLeft`).
#![tactic(auto)]

pub mod ends;

pub use ends::{call_left, equal_left, throw_left};
