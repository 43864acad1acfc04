//! What the functions hold that conversion makes. No code.
//!
//! It stands on `convert_laws`, `cps_ir` and `lambda_ir`, and on what these stand on. Its main contract: `labels_are_owned`: a frame without a function of its own has no label. What it is for is a lemma, since no contract can range over it: where each function may hold what the walk over terms says, each function of what conversion makes holds no more than it may.
//!
//! What stands in the text of a term are the atoms of its free names, and what the text behind it reads. So a function of a closure holds the atoms of its free names at most, and that of a frame those of what the frame goes on with, and what the text behind the frame reads where the frame around it has no function.
#![tactic(auto)]

ghost use Rattle.convert_held.specs.Law.{LabelsAreOwned};

/// A frame without a function of its own has no label.
pub fn labels_are_owned()
    ensures { LabelsAreOwned }
{}
