//! Tests of the machine's side, in a crate of their own: a crate with tests is proved twice, and what is below isn't proved again here.
//!
//! It stands on `pass_example`, `rv_machine`, `rv_asm`, `elf_static`, `smlc_edge`, `smlc_base` and `rv_isa`, and has no contract.
#![tactic(auto)]

#[cfg(test)]
mod adapters;
#[cfg(test)]
mod assembly;
#[cfg(test)]
mod files;
#[cfg(test)]
mod lists;
#[cfg(test)]
mod outside;
#[cfg(test)]
mod programs;
#[cfg(test)]
mod words;
