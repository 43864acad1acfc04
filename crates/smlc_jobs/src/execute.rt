//! The run of an ELF file.

ghost use Rattle.std.specs.Prelude.{◌≡◌, ◌↔◌, ℕ, IsTrue, false};
ghost use Rattle.smlc_edge.specs.Edge.{Rose};
ghost use Rattle.elf_static.specs.Load.{IsLoadable};
ghost use Rattle.elf_static.specs.Reading.{meaning_of};
ghost use Rattle.smlc_jobs.specs.Outcome.{is_fault};
ghost use Rattle.smlc_jobs.specs.Runs.{tally, intake, Came};
ghost use Rattle.smlc_jobs.specs.Execute.{RanImage, Executed, unread};

use crate::outcome::Outcome;
use elf_static::{ElfError, Image, read_elf};
use rv_machine::{End, Machine};
use smlc_edge::{Sink, Source};
use std::alloc::Global;

/// Reads an ELF file, and runs it for so many instructions at the most.
pub fn execute<I: Source, O: Sink, E: Sink>(
    alloc: Global,
    bytes: &[u8],
    steps: u64,
    input: &mut I,
    out: &mut O,
    err: &mut E,
) -> Outcome
    ensures executed { (store : ℕ) → Came (O.taken out.old) (O.taken out.new) (E.taken err.old) (E.taken err.new) (λ wrote wrote_err.
        Executed bytes.now steps (tally store (I.faults input.old) (O.faults out.old) (E.faults err.old))
        (tally store (I.faults input.new) (O.faults out.new) (E.faults err.new)) (intake (I.left input.old) (I.left input.new)) wrote wrote_err result) }
    ensures sure { I.sure input.old → O.sure out.old → E.sure err.old → (is_fault result ≡ false) × E.sure err.new }
{
    match read_elf(alloc, bytes) {
        Ok(image) => run_image(alloc, &image, steps, input, out, err),
        Err(e) => not_read(e),
    }
}

fn not_read(e: ElfError) -> Outcome
    ensures { result ≡ unread e }
{
    match e {
        ElfError::NotElf(kind, at) => Outcome::NotElf(kind, at),
        ElfError::NoMemory => Outcome::NoMemory,
    }
}

// Runs an image.
fn run_image<I: Source, O: Sink, E: Sink>(
    alloc: Global,
    image: &Image,
    steps: u64,
    input: &mut I,
    out: &mut O,
    err: &mut E,
) -> Outcome
    requires { IsLoadable image.now }
    ensures ran { (store : ℕ) → Came (O.taken out.old) (O.taken out.new) (E.taken err.old) (E.taken err.new) (λ wrote wrote_err.
        RanImage image.now steps (tally store (I.faults input.old) (O.faults out.old) (E.faults err.old))
        (tally store (I.faults input.new) (O.faults out.new) (E.faults err.new)) (intake (I.left input.old) (I.left input.new)) wrote wrote_err result) }
    ensures sure { I.sure input.old → O.sure out.old → E.sure err.old → (is_fault result ≡ false) × E.sure err.new }
{
    let Ok(mut machine) = Machine::load(alloc, image) else {
        return Outcome::NoMemory;
    };
    let before = out.faults();
    match machine.run(steps, input, out, err) {
        End::Exit(status) => Outcome::Exited {
            status,
            x11: machine.reg(11),
            x12: machine.reg(12),
        },
        End::Trap { pc, word } => Outcome::Trapped { pc, word },
        End::Steps => Outcome::Steps(steps),
        End::ReadFault => Outcome::InputFault,
        End::WriteFault => {
            if rose(before, out.faults()) {
                Outcome::OutFault
            } else {
                Outcome::ErrFault
            }
        }
    }
}

// Whether a count of faults rose, or stands at its greatest value.
fn rose(before: u64, now: u64) -> bool
    ensures { IsTrue result ↔ Rose before now }
{
    before < now || now == u64::MAX
}
