//! A program stays slim in contraction. No code.
//!
//! It stands on `contract_round`, `contract_laws`, `close_laws`, `cps_free` and `cps_ir`, and on what these stand on. Its main contract: `contracted_is_slim`: what contraction makes of a slim program is slim.
#![tactic(auto)]

ghost use Rattle.contract_slim.specs.Law.{ContractedIsSlim};

/// What contraction makes of a slim program is slim.
pub fn contracted_is_slim()
    ensures { ContractedIsSlim }
{}
