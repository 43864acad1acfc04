//! The factor of a plan. No code.
//!
//! It stands on `close_laws`, `closure_plan`, `label_order`, `contract_slim` and `cps_ir`, and on what these stand on. Its main contract: `factor_is_at_most_4`: the factor of a slim program's plan is at most 4.
#![tactic(auto)]

ghost use Rattle.factor_laws.specs.Law.{FactorIsAtMost4};

/// The factor of a slim program's plan is at most 4.
pub fn factor_is_at_most_4()
    ensures { FactorIsAtMost4 }
{}
