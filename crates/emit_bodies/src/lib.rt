//! Bodies with all that stands in them, as items in the order of the text.
//!
//! It stands on `emit_code` for the items of their forms, on `emit_items` for the definition, and on what these stand on. Its main contract: `put_body` puts exactly the items of a body's tree in front of a text, or wants memory.
//!
//! A body's code is made from its end on, with a stack of what is left, so that a rule's tests know how far it is to the next rule.
#![tactic(auto)]

pub mod body;
pub mod function;
pub mod layout;
pub mod rules;
mod stack;
pub mod task;

pub use body::put_body;
pub use function::put_function;
pub use rules::put_tests;
pub use task::Task;
