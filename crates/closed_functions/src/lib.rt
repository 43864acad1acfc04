//! Which functions of a `Cps` program are closed: those that have no free variable but themselves and closed functions.
//!
//! It stands on `close_laws` for the definition, on `cps_survey` for the functions of a program, and on what these stand on. Its main contract: `closed_functions` answers exactly the definition's closed functions.
//!
//! From the set of all functions those go out that need something else, one function after another, until none goes out in a whole round (`rounds`). Functions come in the order in which they stand in the program, so that what a function needs has mostly gone out before it, and a few rounds do.
#![tactic(auto)]

pub mod closed;
pub mod rounds;

pub use closed::{closed_functions, is_closed};
