//! Scopes: where a body finds each variable, and the record of each class.
//!
//! It stands on `close_laws` and `closure_ir`, and on what these stand on. Its main contract: `bind_all` makes a scope that has these bindings in front of those of another, and leaves all other scopes as they were.
//!
//! Scopes share what they have in common: a scope is the number of its innermost binding, and each binding knows the number of the one around it. So a rule of a match goes on with the scope of the body in which it stands, and nothing is copied.
#![tactic(auto)]

pub mod found;
pub mod scopes;

pub use found::Found;
pub use scopes::{Bound, Scope, Scopes};
