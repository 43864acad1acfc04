//! The outside of a program: sources, sinks and stores, each with a count of its faults, and what surely doesn't fail.
//!
//! It stands on `smlc_base`. Its main contract: `take`, `put`, `load` and `save` answer a failure only where the count of faults rose,
//! and move bytes as the meaning of the object says: the bytes left, the bytes taken, the map from names to bytes.
#![tactic(auto)]

pub mod adapters;
pub mod calls;
pub mod edge;
pub mod entry;
pub mod memory;
pub mod quiet;
pub mod store;

pub use adapters::{FileStore, StdSink, StdSource};
pub use edge::{Failed, Sink, Source, Store, StoreError};
pub use memory::{MemSink, MemSource};
pub use quiet::{QuietSink, QuietSource};
pub use store::MemStore;
