//! What the program is asked to do, of all that words may ask.

ghost use Rattle.std.specs.Prelude.{List, ℕ, map, string_bytes, IfOk, IfSome, IfNone, ◌≡◌};
ghost use Rattle.smlc_words.specs.Asks.{asked};
ghost use Rattle.smlc_jobs.specs.Job.{IsAsked, IsInRange, Allows, job_of};
ghost use Rattle.smlc_jobs.specs.Job.{Job as Wanted};

use smlc_base::NoMemory;
use smlc_words::{Command, command};
use std::alloc::Global;

/// The words of the arena where nothing is said.
const ARENA: u64 = 8_388_608;

/// How many instructions are done at the most where nothing is said.
const STEPS: u64 = 1_000_000_000;

/// A job: the names of files are words of the command line.
#[derive(Drop)]
pub enum Job<'a> {
    /// Compile files and run what was made, with an arena of so many words, for so many instructions at the most.
    Run {
        files: Vec<&'a str>,
        arena: u64,
        steps: u64,
    },
    /// Compile files, with an arena of so many words, and save what was made under a name.
    Compile {
        files: Vec<&'a str>,
        target: &'a str,
        arena: u64,
    },
    /// Run an ELF file, for so many instructions at the most.
    Exec {
        file: &'a str,
        steps: u64,
    },
    /// Write the types of files' names.
    Types {
        files: Vec<&'a str>,
    },
    /// Write the plan of files' closures.
    Plan {
        files: Vec<&'a str>,
    },
    /// Write the large program of this number, with so many functions.
    Gen {
        number: u64,
        size: u64,
    },
}

/// The job that the words ask for, if any.
pub fn find_job<'a>(alloc: Global, words: &'a [String]) -> Result<Option<Job<'a>>, NoMemory>
    ensures some { IfOk result (λ o. IfSome o (λ j. IsAsked (map string_bytes words.now) (job_of j))) }
    ensures range { IfOk result (λ o. IfSome o (λ j. IsInRange (job_of j))) }
    ensures none { IfOk result (λ o. IfNone o ((wanted : Wanted) → IsAsked (map string_bytes words.now) wanted → ⊥)) }
{
    match command(alloc, words) {
        Ok(Some(command)) => Ok(allowed(command)),
        Ok(None) => Ok(None),
        Err(e) => Err(e),
    }
}

// The job that a command is, if it is there by now.
fn allowed<'a>(command: Command<'a>) -> Option<Job<'a>>
    ensures some { IfSome result (λ j. Allows (asked command.entry) (job_of j)) }
    ensures none { IfNone result ((wanted : Wanted) → Allows (asked command.entry) wanted → ⊥) }
{
    match command {
        Command::Run {
            files,
            arena,
            steps,
        } => Some(Job::Run {
            files,
            arena: arena.unwrap_or(ARENA),
            steps: steps.unwrap_or(STEPS),
        }),
        Command::Compile { files, out, arena } => Some(Job::Compile {
            files,
            target: out,
            arena: arena.unwrap_or(ARENA),
        }),
        Command::Exec { elf, steps } => Some(Job::Exec {
            file: elf,
            steps: steps.unwrap_or(STEPS),
        }),
        Command::Types { files } => Some(Job::Types { files }),
        Command::Plan { files } => Some(Job::Plan { files }),
        Command::Gen { number, size } => Some(Job::Gen { number, size }),
        _ => None,
    }
}
