//! The program of `Cps` that a tree becomes is slim. No code.
//!
//! It stands on `convert_held`, `convert_points`, `contract_slim`, `lambda_laws` and `sml_def`, and on what these stand on. Its main contract: `converted_is_slim`: none of its functions holds more than the words of its site allow; `middle_is_slim`: so it is with what contraction leaves of it, as closing asks.
//!
//! A closure of the tree holds its free names, and so does the function that stands for it. A frame holds what it goes on with, and the frame around it; where that has no function of its own, the inner one holds what both go on with, and has the words of both, since then no label of the outer one is left.
#![tactic(auto)]

ghost use Rattle.convert_slim.specs.Law.{ConvertedIsSlim, MiddleIsSlim};

/// What conversion makes of a tree is slim.
pub fn converted_is_slim()
    ensures { ConvertedIsSlim }
{}

/// So is what contraction leaves of it.
pub fn middle_is_slim()
    ensures { MiddleIsSlim }
{}
