//! The bodies of a `Cps` program, closed one after another by number.
//!
//! It stands on `close_seen` for what each body sees at its beginning, on `close_bodies` and `close_entries`, and on what these stand on. Its main contract: `close_all` answers exactly the bodies that the definition makes of all bodies of a program.
//!
//! What each body sees stands in a table by number (`begins`). The bodies of functions are entered first, since what they see doesn't depend on where they are bound; those of rules have a greater number than the body that ends with them, and come to see what is seen there.
#![tactic(auto)]

pub mod all;
pub mod begins;
pub mod functions;

pub use all::close_all;
pub use functions::functions_of;
