//! What a meter tells of a run: definitions, and what the table of entries says of a state.
//!
//! It stands on `heap_reach`, `heap_probes`, `rv_run`, `rv_machine` and what these stand on. Its main contract is a definition: `Meters` (`specs/Meter`) says that the run is the machine's own, which of its states are
//! entries, and what is told of those that are measured. The meter itself is not here yet; `row_of` and `used_words` answer what it needs of a state.
#![tactic(auto)]

pub mod end;
pub mod rows;

pub use end::MeterEnd;
