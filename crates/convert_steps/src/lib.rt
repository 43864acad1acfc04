//! What conversion to `Cps` does with one thing that is left to be written: parts of frames, matches, bindings, functions, handlers and exception names.
//!
//! It stands on `convert_pieces` for names, fields, tests and tuples, on `convert_laws` for what is to be written, on `convert_decide`, `convert_scopes`, `cps_ir`, `lambda_ir`, `prim_meaning`, `sml_def`, `sml_tree`, `simulation` and `smlc_base`. Its main contract: each of its functions writes exactly the code of the definition, for each scope and each continuation that the numbers of its arguments stand for (`Writes`, in `specs/Writes.antt`).
//!
//! What is left is data (`task`), by number (`world`). `specs/Codes.antt` says which code it stands for.
#![tactic(auto)]

pub mod ends;
pub mod exceptions;
pub mod frames;
pub mod functions;
pub mod handles;
pub mod matches;
pub mod parts;
pub mod rules;
pub mod scoped;
pub mod source;
pub mod task;
pub mod world;
