//! What holds of the state of a round of contraction, and that each task keeps it. No code.
//!
//! It stands on `contract_steps` and what this stands on. Its main contract: `round_goes_on`: where the tasks that are left make what is promised of the bodies of the answer, body 0 is the walk of the whole, and a task keeps that.
//!
//! One set of tables serves all bodies that are still to be walked. What is entered at a binding is no matter for the others, since no variable is bound twice and none is used but where it is bound or behind that: so what is still to be bound is mentioned nowhere else, not in the tables either (`Holds`). A function that is put where it is called has one use, and that in no function: so its body can be walked by the tables as they are at the call.
#![tactic(auto)]

ghost use Rattle.contract_holds.specs.Law.{RoundBegins, RoundGoesOn, RoundEnds};

/// It holds where nothing is entered and the whole is to be walked.
pub fn round_begins()
    ensures { RoundBegins }
{}

/// A task keeps it, and less is left to be walked.
pub fn round_goes_on()
    ensures { RoundGoesOn }
{}

/// Where no task is left, the bodies are one tree, which is the walk of the whole.
pub fn round_ends()
    ensures { RoundEnds }
{}
