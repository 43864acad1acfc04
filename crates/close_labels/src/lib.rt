//! The functions of a closed program, in the order of their labels.
//!
//! It stands on `close_steps` for what is decided of functions, on `close_laws`, `closure_ir` and `cps_ir`, and on what these stand on. Its main contract: `routines_by_label` answers exactly the functions of the slots of labels, each with its own closure as its first parameter.
//!
//! Each function puts its number into the slot of its label. No two functions of a slim program have one, so no slot is taken twice.
#![tactic(auto)]

pub mod slots;

pub use slots::routines_by_label;
