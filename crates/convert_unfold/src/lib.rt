//! What conversion to `Cps` makes of a term, from what it makes of the terms behind it. No code.
//!
//! It stands on `convert_laws`, `cps_ir` and `lambda_ir`, and on what these stand on. Its main contract: `conversion_unfolds`: what is made of a term of a program is what the definition's clause for its form makes of it, by what is made of other terms.
//!
//! The definition goes down so many levels as the program has terms, so that it ends. That this is enough is said once here, so that code which converts a program may take one form at a time.
#![tactic(auto)]

ghost use Rattle.convert_unfold.specs.Law.{ConversionUnfolds, FunctionsUnfold};

/// What conversion makes of a term is what the clause for its form makes of it.
pub fn conversion_unfolds()
    ensures { ConversionUnfolds }
{}

/// The function that a term is, is what the clause for its form says.
pub fn functions_unfold()
    ensures { FunctionsUnfold }
{}
