//! Probes: what is told of the entries of a run, and four that note something of it.
//!
//! It stands on `smlc_base` and `itoa`. Its main contract: `tell_all` tells an entry to each probe in order, and those that want no more
//! are dropped at once, so that after any entries each is what the fold of its own `note` makes of it, or gone (`folds_compose`).
#![tactic(auto)]

pub mod growth;
pub mod labels;
pub mod laws;
pub mod limit;
mod lines;
pub mod peak;
pub mod probe;
pub mod telling;

pub use growth::GrowthProbe;
pub use labels::LabelProbe;
pub use limit::LimitProbe;
pub use peak::PeakProbe;
pub use probe::{Entry, Next, Probe};
pub use telling::tell_all;
