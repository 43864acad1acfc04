//! The program of `Lambda` that a tree becomes ends in no call. No code.
//!
//! It stands on `lambda_laws` for what the program is, on `convert_laws` for which terms call, on `lambda_ir`, `sml_types` and `sml_tree`, and on what these stand on. Its main contract: `program_ends_in_no_call`: what is done last is the end of the nest of declarations, so that the conversion to `Cps` is given no call at its end.
#![tactic(auto)]

ghost use Rattle.lambda_ends.specs.Law.{ProgramEndsInNoCall};

/// The program of a tree ends in no call.
pub fn program_ends_in_no_call()
    ensures { ProgramEndsInNoCall }
{}
