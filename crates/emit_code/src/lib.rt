//! The items of the forms of placed programs, put one behind the other.
//!
//! It stands on `emit_items` for what they are, and on what that stands on. Its main contract: each function puts exactly the items that the definition says behind those that stand there, or wants memory.
#![tactic(auto)]

pub mod calls;
pub mod constants;
pub mod ends;
mod items;
pub mod making;
pub mod numbers;
pub mod primitives;
pub mod reading;
pub mod steps;
pub mod tests;
pub mod text;

pub use constants::{load, load_scalar};
pub use making::{make, make_frame};
pub use primitives::do_primitive;
pub use reading::{fetch, get};
pub use text::Text;
