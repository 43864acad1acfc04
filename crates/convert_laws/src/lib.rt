//! What the program of `Cps` is that one of `Lambda` becomes.
//!
//! It stands on `cps_ir`, `lambda_ir`, `prim_meaning`, `sml_def`, `sml_tree`, `simulation` and `smlc_base`. Its main contract: conversion by any decision that fits binds each variable once, and the rule of 16 words fits. `specs/Program.antt` says what the program is, for any decision which frames have functions of their own (`tree_with`), and by the rule of 16 words (`cps_of`).
//!
//! `specs/Needs.antt` says where a function is needed, `specs/Facts.antt` what is asked of the terms of a program, `specs/Decide.antt` is the rule of 16, `specs/Convert.antt` the conversion, and `specs/Fit.antt` what is asked of a decision. There is no code here but two types, so that it isn't proved again with that of the pass.
#![tactic(auto)]

ghost use Rattle.convert_laws.specs.Law.{RuleOf16Fits, ConversionBindsOnce};

pub mod head;
pub mod reach;

pub use head::Head;
pub use reach::Reach;

/// The rule of 16 words is a decision that fits a program which ends in no call.
pub fn rule_of_16_fits()
    ensures { RuleOf16Fits }
{}

/// Conversion by any decision that fits binds each variable once, and below the size of the whole.
pub fn conversion_binds_once()
    ensures { ConversionBindsOnce }
{}
