//! What a round of contraction leaves of the rules of a match.
//!
//! It stands on `contract_known`, `contract_round` and `cps_ir`, and on what these stand on. Its main contract: the rules that `rules_left` answers, with the walks of their bodies, are the walk of the rules (`AreRulesLeft`).
#![tactic(auto)]

pub mod rules;

pub use rules::{RulesLeft, rules_left};
