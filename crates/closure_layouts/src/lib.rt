//! What the closure of each function of a `Cps` program has: whether there is one at all, whether it has a code word, the classes whose records it names, and the variables of its own.
//!
//! It stands on `close_laws` for the definitions, on `cps_survey` and `variable_users`, and on what these stand on. Its main contract: `closure_layouts` answers exactly the definition's layout for each function, in the order in which they stand in the program.
//!
//! Each class puts its number into the sets of its users, and its variables into the set of all that classes have (`tables`). A function's layout is then a look-up by its label and two walks over its free variables (`layouts`).
#![tactic(auto)]

pub mod layouts;
pub mod tables;

pub use layouts::{ClosureLayout, closure_layouts};
