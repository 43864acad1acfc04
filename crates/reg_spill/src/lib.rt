//! Registers and spill records: the pass from `Closed` to `Placed`.
//!
//! It stands on `closed_live` for what lives along a body, on `place_bodies` and `place_laws` for the rule of places, on `placed_ir`, `closure_ir` and on what these stand on. Its main contract: the tree of the program that `place` answers is exactly the one that the rule of places makes of its argument's.
//!
//! Bodies are met in ascending order, so that the places with which a body begins are known when it is met: they stand in a row beside the variables that live before it. A table has the place of each variable. A body is gone through from its beginning to its end; a variable that it binds gets the least place that no variable has which lives on beside it. The words of spill records are counted when all bodies are placed, from the last one down, and stand beside the functions.
#![tactic(auto)]

mod binds;
pub mod body;
pub mod entries;
mod frames;
mod homes;
pub mod pass;
pub mod plain;
pub mod program;
pub mod roots;
mod sources;
pub mod spills;
mod tables;
mod words;

pub use body::place_body;
pub use pass::place;
pub use plain::place_plainly;
pub use program::place_all;
pub use roots::begin;
pub use spills::spilled;
