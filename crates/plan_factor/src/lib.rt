//! The factor of a plan: how many times the words of the source are enough for those of closures and class records.
//!
//! It stands on `label_plans` and on what this stands on. Its main contract: `factor` answers exactly the definition's factor of a program.
//!
//! Functions come into the group of their site, which is that of one function or of the two of a `handle` (`groups`). A group's words are those of its closures and of the different class records that they name (`sites`), and the factor is the greatest of all quotients (`greatest`).
#![tactic(auto)]

pub mod greatest;
pub mod groups;
pub mod sites;

pub use greatest::factor;
