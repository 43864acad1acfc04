//! That the runs of a typed tree are sane: function constants come to function parts alone, and exceptions that patterns name are exception names.
//!
//! It stands on `sml_sound` for the types of states, on `match_laws` and `lambda_ir` for the words that `Lambda` has for this, on `prim_meaning`, `sml_types`, `sml_def`, `sml_tree`, `simulation` and `smlc_base`. Its main contract: each state of each run of a typed tree, whose function constants stand as function parts and whose exception constructors stand for exceptions, is sane.
//!
//! `specs/Sane.antt` says what is sane, `specs/Uses.antt` what is asked of the tree, and `specs/Flow.antt` which values come where in its runs.
#![tactic(auto)]

ghost use Rattle.sane_laws.specs.Laws.{RunsAreSane};

/// The runs of a typed tree are sane.
pub fn runs_are_sane()
    ensures { RunsAreSane }
{}
