//! What a program cites, and its variables, after contraction. No code.
//!
//! It stands on `contract_round`, `contract_laws`, `cps_free` and `cps_ir`, and on what these stand on. Its main contract: `contracted_keeps_ranges`: what contraction answers cites no constant, text or name that isn't there, and binds no variable above the bound.
#![tactic(auto)]

ghost use Rattle.contract_kept.specs.Ranges.{ContractedKeepsRanges, RangesOfBodies};

/// Contraction keeps constants in their ranges and variables below the bound.
pub fn contracted_keeps_ranges()
    ensures { ContractedKeepsRanges }
{}

/// Bodies that make such a tree keep their constants in their ranges.
pub fn ranges_of_bodies()
    ensures { RangesOfBodies }
{}
