//! The counter of the heap: how many words and blocks of a machine's arena are reached from given words, and how often each label
//! was entered.
//!
//! It stands on `rv_machine`, on `rv_run`, which defines what a count is, and on what these stand on. Its main contract:
//! `Reach::count` answers the words and blocks of the least set that has the targets of the roots and is closed under fields, whatever
//! stands in the memory.
//!
//! A block is known by the number of its first word. What was found is a list in the order in which it was found (`numbers`), with a
//! mark at each number in it; the walk looks into one block of the list after another (`walk`). So each word of what is reached is
//! read once, and the marks are taken away by the list, not by the whole arena. All tables are made beforehand.
#![tactic(auto)]

pub mod heap;
pub mod laws;
pub mod numbers;
pub mod reach;
pub mod walk;

pub use reach::Reach;
pub use walk::Count;
