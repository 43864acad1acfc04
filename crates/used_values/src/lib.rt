//! Which variables of a `Cps` program are used as values, other than as the function part of a call, and whether a comparison stands in it.
//!
//! It stands on `close_laws` for the definitions, on `cps_free`, and on what these stand on. Its main contract: `used_values` answers exactly the variables that are used as values, and `has_comparison` exactly whether a comparison stands in the program.
//!
//! A body's own uses go into an ordered set (`own`). Each walk has a list of bodies in place of recursion, since bodies nest as deep as a program is long (`walk`).
#![tactic(auto)]

pub mod own;
pub mod parts;
pub mod walk;

pub use walk::{has_comparison, used_values};
