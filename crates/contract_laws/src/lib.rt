//! What contraction of `Cps` does, and that it keeps a program: five ways to take something out of a body, any number of them in one round, and rounds one after another.
//!
//! It stands on `cps_ir`, `lambda_ir`, `prim_meaning`, `sml_def`, `sml_tree`, `simulation` and `smlc_base`. Its main contract: any number of rounds keep the run of a program.
//!
//! `specs/Contract.antt` is one round as a relation between a body and what is left of it, `specs/Redex.antt` what can still be taken out, `specs/Weigh.antt` how much of something stands in a body, and `specs/Law.antt` the laws. There is no code here, so that it isn't proved again with that of the pass.
#![tactic(auto)]

ghost use Rattle.contract_laws.specs.Law.{ContractionKeeps, ContractionIsAPass};

/// Rounds of contraction keep the run of a program.
pub fn contraction_keeps()
    ensures { ContractionKeeps }
{}

/// They are a pass among others, as the theory of passes takes it.
pub fn contraction_is_a_pass()
    ensures { ContractionIsAPass }
{}
