//! That a typed program is never stuck.
//!
//! It stands on `sml_types` for what a typing is, on `sml_def` for the source machine, on `prim_meaning`, `sml_tree`, `simulation` and `smlc_base`. Its main contract: the machine of a typed program has a step in every state but its end.
//!
//! `specs/NeverStuck.antt` says it, `specs/TypedStates.antt` says what types the values, blocks and states of a typed program have, and `proofs/Safe.antt` has one lemma for each function of the machine.
#![tactic(auto)]

ghost use Rattle.sml_sound.specs.NeverStuck.{NeverStuck, SourceIsSound};

/// The machine of a typed program has a step in every state but its end.
pub fn never_stuck()
    ensures { NeverStuck }
{}

/// The runs of a typed program never stop without an end, and each of its points stands at most once.
pub fn source_is_sound()
    ensures { SourceIsSound }
{}
