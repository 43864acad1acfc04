//! Evaluation of Core Standard ML programs by the dynamic rules of The Definition of Standard ML (Revised), and that the source machine agrees with them.
//!
//! It stands on `sml_def` for the source machine, on `sml_types`, `sml_sound` and `sane_laws` for what typed programs do, on `prim_meaning` for what primitives make of data, on `match_laws` and `lambda_ir` for the words of `sane_laws`, and on `sml_tree`, `simulation` and `smlc_base`. Its main contract: a typed program, whose exception constructors stand for exceptions, ends by the rules as it ends on the machine, with the same output, and what it has written by either is what it writes by the other.
//!
//! `specs/Terms.antt` has values, environments and states, `specs/Patterns.antt`, `specs/Apply.antt` and `specs/Rules.antt` the rules, and `specs/Agree.antt` the law. There is no code here: no call evaluates a program by the rules.
#![tactic(auto)]

ghost use Rattle.sml_rules.specs.Agree.{RulesAgree};

/// The source machine agrees with the rules: ends and outputs, both ways.
pub fn agree()
    ensures { RulesAgree }
{}
