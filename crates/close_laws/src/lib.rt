//! What closing is: from a program of `Cps` to one of `Closed` with class records, the plan of its closures, and the text of a plan.
//!
//! It stands on `lifetime_users` for the classes of variables, on `closure_ir` and `cps_ir`, and on what these stand on. It holds the definitions that the code of the pass is to answer, and the types of the plan. Its main contract: the functions that it makes static blocks are the greatest set that has no free variables but its own functions.
//!
//! `specs/Layouts.antt` says which functions are closed and what a closure has, `specs/Lower.antt` how a body is rewritten by a design, `specs/Close.antt` the design and the program, `specs/Plan.antt` the plan with its factor, and `specs/Text.antt` how a plan is written.
#![tactic(auto)]

ghost use Rattle.cps_ir.specs.Code.{Code};
ghost use Rattle.cps_ir.specs.Slim.{layouts, IsClosedSet};
ghost use Rattle.close_laws.specs.Layouts.{closed_names};

pub mod plan;

pub use plan::{LabelPlan, Plan};

/// The closed functions are the greatest set whose functions have no free variable but themselves and its members.
pub fn closed_functions_are_greatest()
    ensures { (c : Code) → IsClosedSet c (closed_names (layouts c)) }
{}
