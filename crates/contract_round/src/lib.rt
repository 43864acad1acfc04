//! Contraction of `Cps` as a function: rounds, each a census and one walk that takes out what it can, until nothing is left.
//!
//! It stands on `contract_laws`, `cps_ir`, `lambda_ir`, `prim_meaning`, `sml_def`, `sml_tree`, `simulation` and `smlc_base`. Its main contract: what it answers keeps the run of a program, and has nothing in it that can be taken out.
//!
//! `specs/Round.antt` is the function, and `specs/Law.antt` its laws. `contract_laws` has contraction as a relation, which many functions are in; this one is what the code does. There is no code here, so that the laws aren't proved again with it.
#![tactic(auto)]

ghost use Rattle.contract_round.specs.Law.{SlimIsWhole, RoundsEnd, NothingIsLeft, ContractedByRounds, ContractedKeeps};

/// What contraction asks of its argument, a slim program has.
pub fn slim_is_whole()
    ensures { SlimIsWhole }
{}

/// A round makes a body smaller, or leaves it as it is.
pub fn rounds_end()
    ensures { RoundsEnd }
{}

/// Nothing is left that can be taken out.
pub fn nothing_is_left()
    ensures { NothingIsLeft }
{}

/// Contraction is rounds of the relation, each over a body in which names are bound once.
pub fn contracted_by_rounds()
    ensures { ContractedByRounds }
{}

/// It keeps the run of a program.
pub fn contracted_keeps()
    ensures { ContractedKeeps }
{}
