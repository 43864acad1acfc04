//! The labels of a plan: for each the words of its closure and of the class records that this names, against the words of the source.
//!
//! It stands on `closure_layouts`, `label_order` and `left_words`, and on what these stand on. Its main contract: `label_plans` answers exactly the definition's rows for the functions of a program, in the order of their labels.
#![tactic(auto)]

pub mod measures;
pub mod rows;

pub use rows::label_plans;
