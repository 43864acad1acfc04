//! The top call.

ghost use Rattle.std.specs.Prelude.{◌≡◌, ◌≢◌, ◌≤◌, List, [], ℕ, Option, All, length, map, string_bytes, false};
ghost use Rattle.smlc_jobs.specs.Job.{RunFiles, CompileFiles, ExecFile, TypesFiles, PlanFiles, GenText, IsAsked, IsInRange, Serves, job_of};
ghost use Rattle.smlc_jobs.specs.Job.{Job as Wanted};
ghost use Rattle.smlc_words.specs.Given.{IsArena};
ghost use Rattle.smlc_jobs.specs.Outcome.{is_fault};
ghost use Rattle.smlc_top.specs.Clause.{Answers, Performed};
ghost use Rattle.smlc_edge.specs.Edge.{Files};
ghost use Rattle.smlc_jobs.specs.Runs.{tally, intake, Came};

use crate::build::{Built, build};
use crate::plan::plan_of;
use crate::types::{Shown, show};
use generator::program;
use smlc_edge::{Sink, Source, Store, StoreError};
use smlc_jobs::execute::execute;
use smlc_jobs::job::{Job, find_job};
use smlc_jobs::load::{Loaded, load_all};
use smlc_jobs::outcome::{MEMORY, Outcome, USAGE, ended, report};
use smlc_jobs::write::{say, write_whole};
use std::alloc::Global;

/// Does what the words say, and answers the status.
///
/// `run FILE.. [--arena W] [--steps N]` compiles a program and runs it, `compile FILE.. -o OUT [--arena W]` saves what was made as an ELF file, and
/// `exec ELF [--steps N]` runs any ELF file that keeps to the system calls of the machine. `types FILE..` writes the types of a program's names, `plan FILE..`
/// what its closures hold, and `gen NUMBER SIZE` a large program. What the program prints, the types and the plan go to `out`, and the line of the status to `err`.
/// The status is 0 where all was done, 1 where the program ended by an exception that nothing handles, 2 where the files were refused, 3 where the program's arena was
/// full, 4 where so many instructions were done and the program goes on, 5 where the outside failed, 6 for want of memory, 7 where the words are no command,
/// 8 where the file is no ELF file that can be run, and 9 where the machine has no step.
pub fn smlc_main<F: Store, I: Source, O: Sink, E: Sink>(
    alloc: Global,
    words: &[String],
    store: &mut F,
    input: &mut I,
    out: &mut O,
    err: &mut E,
) -> u8
    ensures answer { Came (O.taken out.old) (O.taken out.new) (E.taken err.old) (E.taken err.new) (λ wrote wrote_err.
        Answers (map string_bytes words.now) (F.files store.old) (F.files store.new)
        (tally (F.faults store.old) (I.faults input.old) (O.faults out.old) (E.faults err.old))
        (tally (F.faults store.new) (I.faults input.new) (O.faults out.new) (E.faults err.new)) (intake (I.left input.old) (I.left input.new)) wrote wrote_err result) }

    // Where the outside is sure, no fault is answered.
    ensures sure { ((job : Wanted) → IsAsked (map string_bytes words.now) job → Serves job (F.surely_loads store.old) (F.surely_saves store.old)) →
        I.sure input.old → O.sure out.old → E.sure err.old → result ≢ 5 }
{
    match find_job(alloc, words) {
        Ok(Some(job)) => do_job(alloc, job, store, input, out, err),
        Ok(None) => say(err, USAGE, 7),
        Err(_) => say(err, MEMORY, 6),
    }
}

// Does a job, and answers the status.
fn do_job<F: Store, I: Source, O: Sink, E: Sink>(
    alloc: Global,
    job: Job<'_>,
    store: &mut F,
    input: &mut I,
    out: &mut O,
    err: &mut E,
) -> u8
    requires { IsInRange (job_of job) }
    ensures answer { (words : List (List ℕ)) → IsAsked words (job_of job.entry) → Came (O.taken out.old) (O.taken out.new) (E.taken err.old) (E.taken err.new) (λ wrote wrote_err.
        Answers words (F.files store.old) (F.files store.new)
        (tally (F.faults store.old) (I.faults input.old) (O.faults out.old) (E.faults err.old))
        (tally (F.faults store.new) (I.faults input.new) (O.faults out.new) (E.faults err.new)) (intake (I.left input.old) (I.left input.new)) wrote wrote_err result) }
    ensures sure { Serves (job_of job.entry) (F.surely_loads store.old) (F.surely_saves store.old) →
        I.sure input.old → O.sure out.old → E.sure err.old → result ≢ 5 }
{
    match job {
        Job::Run {
            files,
            arena,
            steps,
        } => {
            let names = files.as_slice();
            let outcome = run(alloc, names, arena, steps, store, input, out, err);
            report(err, names, "", &outcome)
        }
        Job::Compile {
            files,
            target,
            arena,
        } => {
            let names = files.as_slice();
            let outcome = compile(alloc, names, target, arena, store);
            report(err, names, target, &outcome)
        }
        Job::Exec { file, steps } => {
            let outcome = exec(alloc, file, steps, store, input, out, err);
            report(err, &[file], "", &outcome)
        }
        Job::Types { files } => {
            let names = files.as_slice();
            let outcome = types(alloc, names, store, out);
            report(err, names, "", &outcome)
        }
        Job::Plan { files } => {
            let names = files.as_slice();
            let outcome = plan(alloc, names, store, out);
            report(err, names, "", &outcome)
        }
        Job::Gen { number, size } => {
            let outcome = generate(alloc, number, size, out);
            report(err, &[], "", &outcome)
        }
    }
}

// Compiles files and runs what was made.
fn run<F: Store, I: Source, O: Sink, E: Sink>(
    alloc: Global,
    names: &[&str],
    arena: u64,
    steps: u64,
    store: &mut F,
    input: &mut I,
    out: &mut O,
    err: &mut E,
) -> Outcome
    requires few { length names.now ≤ 256 }
    requires arena { IsArena arena }
    ensures performed { Came (O.taken out.old) (O.taken out.new) (E.taken err.old) (E.taken err.new) (λ wrote wrote_err.
        Performed (RunFiles (map (λ name. name.now) names.now) arena steps) (F.files store.old) (F.files store.new)
        (tally (F.faults store.old) (I.faults input.old) (O.faults out.old) (E.faults err.old))
        (tally (F.faults store.new) (I.faults input.new) (O.faults out.new) (E.faults err.new)) (intake (I.left input.old) (I.left input.new)) wrote wrote_err result) }
    ensures sure { All (F.surely_loads store.old) (map (λ name. name.now) names.now) → I.sure input.old → O.sure out.old → E.sure err.old → (is_fault result ≡ false) × E.sure err.new }
{
    match load_all(alloc, names, store) {
        Loaded::Files(files) => match build(alloc, names, &files, arena) {
            Built::Elf(bytes) => { ended(execute(alloc, &bytes, steps, input, out, err), arena) }
            Built::Refused(line) => Outcome::Refused(line),
            Built::NoMemory => Outcome::NoMemory,
        },
        Loaded::Failed(at) => Outcome::LoadFault(at),
        Loaded::NoMemory => Outcome::NoMemory,
    }
}

// Compiles files and saves what was made.
fn compile<F: Store>(
    alloc: Global,
    names: &[&str],
    target: &str,
    arena: u64,
    store: &mut F,
) -> Outcome
    requires few { length names.now ≤ 256 }
    requires arena { IsArena arena }
    ensures performed { (i o e : ℕ) (input : Option (List ℕ)) → Performed (CompileFiles (map (λ name. name.now) names.now) target.now arena) (F.files store.old) (F.files store.new)
        (tally (F.faults store.old) i o e) (tally (F.faults store.new) i o e) (intake input input) [] [] result }
    ensures sure { All (F.surely_loads store.old) (map (λ name. name.now) names.now) → F.surely_saves store.old target.now 8589934592 → is_fault result ≡ false }
{
    match load_all(alloc, names, store) {
        Loaded::Files(files) => match build(alloc, names, &files, arena) {
            Built::Elf(bytes) => match store.save(target, &bytes) {
                Ok(()) => Outcome::Done,
                Err(_) => Outcome::SaveFault,
            },
            Built::Refused(line) => Outcome::Refused(line),
            Built::NoMemory => Outcome::NoMemory,
        },
        Loaded::Failed(at) => Outcome::LoadFault(at),
        Loaded::NoMemory => Outcome::NoMemory,
    }
}

// Runs an ELF file.
fn exec<F: Store, I: Source, O: Sink, E: Sink>(
    alloc: Global,
    name: &str,
    steps: u64,
    store: &mut F,
    input: &mut I,
    out: &mut O,
    err: &mut E,
) -> Outcome
    ensures performed { Came (O.taken out.old) (O.taken out.new) (E.taken err.old) (E.taken err.new) (λ wrote wrote_err.
        Performed (ExecFile name.now steps) (F.files store.old) (F.files store.new)
        (tally (F.faults store.old) (I.faults input.old) (O.faults out.old) (E.faults err.old))
        (tally (F.faults store.new) (I.faults input.new) (O.faults out.new) (E.faults err.new)) (intake (I.left input.old) (I.left input.new)) wrote wrote_err result) }
    ensures sure { F.surely_loads store.old name.now → I.sure input.old → O.sure out.old → E.sure err.old → (is_fault result ≡ false) × E.sure err.new }
{
    match store.load(alloc, name) {
        Ok(file) => execute(alloc, &file, steps, input, out, err),
        Err(StoreError::NoMemory) => Outcome::NoMemory,
        Err(StoreError::Failed) => Outcome::LoadFault(0),
    }
}

// Writes the large program of a number and a size.
fn generate<O: Sink>(alloc: Global, number: u64, size: u64, out: &mut O) -> Outcome
    ensures performed { (store i e : ℕ) (told : Option Files) (input err : Option (List ℕ)) → Came (O.taken out.old) (O.taken out.new) err err (λ wrote wrote_err.
        Performed (GenText number size) told told (tally store i (O.faults out.old) e) (tally store i (O.faults out.new) e) (intake input input) wrote wrote_err result) }
    ensures sure { O.sure out.old → is_fault result ≡ false }
{
    match program(alloc, number, size) {
        Ok(text) => match write_whole(out, &text) {
            Ok(()) => Outcome::Done,
            Err(_) => Outcome::OutFault,
        },
        Err(_) => Outcome::NoMemory,
    }
}

// Writes the types of files' names.
fn types<F: Store, O: Sink>(alloc: Global, names: &[&str], store: &mut F, out: &mut O) -> Outcome
    requires { length names.now ≤ 256 }
    ensures performed { (i e : ℕ) (input err : Option (List ℕ)) → Came (O.taken out.old) (O.taken out.new) err err (λ wrote wrote_err.
        Performed (TypesFiles (map (λ name. name.now) names.now)) (F.files store.old) (F.files store.new)
        (tally (F.faults store.old) i (O.faults out.old) e)
        (tally (F.faults store.new) i (O.faults out.new) e) (intake input input) wrote wrote_err result) }
    ensures sure { All (F.surely_loads store.old) (map (λ name. name.now) names.now) → O.sure out.old → is_fault result ≡ false }
{
    match load_all(alloc, names, store) {
        Loaded::Files(files) => match show(alloc, names, &files) {
            Shown::Text(text) => match write_whole(out, &text) {
                Ok(()) => Outcome::Done,
                Err(_) => Outcome::OutFault,
            },
            Shown::Refused(line) => Outcome::Refused(line),
            Shown::NoMemory => Outcome::NoMemory,
        },
        Loaded::Failed(at) => Outcome::LoadFault(at),
        Loaded::NoMemory => Outcome::NoMemory,
    }
}

// Writes the plan of files' closures.
fn plan<F: Store, O: Sink>(alloc: Global, names: &[&str], store: &mut F, out: &mut O) -> Outcome
    requires { length names.now ≤ 256 }
    ensures performed { (i e : ℕ) (input err : Option (List ℕ)) → Came (O.taken out.old) (O.taken out.new) err err (λ wrote wrote_err.
        Performed (PlanFiles (map (λ name. name.now) names.now)) (F.files store.old) (F.files store.new)
        (tally (F.faults store.old) i (O.faults out.old) e)
        (tally (F.faults store.new) i (O.faults out.new) e) (intake input input) wrote wrote_err result) }
    ensures sure { All (F.surely_loads store.old) (map (λ name. name.now) names.now) → O.sure out.old → is_fault result ≡ false }
{
    match load_all(alloc, names, store) {
        Loaded::Files(files) => match plan_of(alloc, names, &files) {
            Shown::Text(text) => match write_whole(out, &text) {
                Ok(()) => Outcome::Done,
                Err(_) => Outcome::OutFault,
            },
            Shown::Refused(line) => Outcome::Refused(line),
            Shown::NoMemory => Outcome::NoMemory,
        },
        Loaded::Failed(at) => Outcome::LoadFault(at),
        Loaded::NoMemory => Outcome::NoMemory,
    }
}
