//! What the commands stand on: the job that words ask for, the loads of files, the run of an ELF file, and the line and the status that tell what came of it.
//!
//! It stands on the words of the command line, on the machine, on ELF files and on the outside. Its main contract: `execute` answers what a run of the image
//! that an ELF file's bytes mean comes to, and writes what that run writes.
#![tactic(auto)]

pub mod execute;
pub mod job;
pub mod load;
pub mod outcome;
pub mod write;
