//! Tests of the heap's counter and of probes, in a crate of their own.
//!
//! It stands on `heap_reach`, `heap_probes`, `rv_machine`, `elf_static` and `smlc_base`, and has no contract.
#![tactic(auto)]

#[cfg(test)]
mod counts;
#[cfg(test)]
mod probes;
