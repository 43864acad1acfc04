//! The data of a program: static blocks behind the text, and the places of all data.
//!
//! It stands on `emit_text` for the text and its labels, and on what that stands on. Its main contract: `bind_data` binds the labels of data, so that the program of assembler is exactly the one that `specs/Program.antt` says, and `read_only` makes exactly the static blocks, or they want memory.
//!
//! All sizes are known before any address, so the places of data are computed and bound before the program is laid out. Only the words in static blocks that are addresses come behind.
#![tactic(auto)]

pub mod binding;
pub mod blocks;
pub mod names;
pub mod places;
pub mod sizes;
pub mod words;

pub use binding::bind_data;
pub use blocks::read_only;
pub use places::{Places, places_of};
pub use sizes::block_words;
