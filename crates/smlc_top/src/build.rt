//! The ELF file of a program.

ghost use Rattle.std.specs.Prelude.{◌+◌, ◌<◌, ◌^◌, length, map};
ghost use Rattle.elf_static.specs.Layout.{IsLaidOut};
ghost use Rattle.sml_tree.specs.IsBare.{IsBare};
ghost use Rattle.smlc_words.specs.Given.{IsArena};
ghost use Rattle.smlc_top.specs.Build.{IsBuilt, IsMade, IsPassed, IsFileOf, IsRefusal};
ghost use Rattle.print_code.specs.Code.{IsStraight};

use crate::front::typed_of;
use elf_static::{Image, write_elf};
use print_code::code::{Printed, make};
use print_code::plain::{Reading, read};
use sml_pipeline::image;
use sml_types::Typed;
use smlc_base::{CompileError, Refusal};
use smlc_jobs::outcome::refused_text;
use std::alloc::Global;

/// What became of files.
#[derive(Drop)]
pub enum Built {
    /// The bytes of an ELF file.
    Elf(Vec<u8>),
    /// They were refused, with the line that says so.
    Refused(Vec<u8>),
    /// Memory was wanting.
    NoMemory,
}

/// The most bytes that a file may have.
const BYTES: usize = 0x2_0000_0000;

/// Compiles the files of these names, with an arena of so many words.
pub fn build(alloc: Global, names: &[&str], files: &[Vec<u8>], arena: u64) -> Built
    requires files { length files.now + 1 < 2 ^ 32 }
    requires arena { IsArena arena }
    ensures { IsBuilt (map (λ name. name.now) names.now) (map (λ f. f.items) files.now) arena result }
{
    let typed = match typed_of(alloc, files) {
        Ok(typed) => typed,
        Err(CompileError::Refused(refusal)) => return refuse(alloc, names, refusal),
        Err(CompileError::NoMemory) => return Built::NoMemory,
    };
    match read(alloc, &typed.bare) {
        Ok(Reading::Stops(_)) => passed(alloc, &typed, arena),
        Ok(Reading::Text(printed)) => elf_of(alloc, printed),
        Err(_) => Built::NoMemory,
    }
}

// The ELF file of straight code.
fn elf_of(alloc: Global, printed: Printed) -> Built
    requires { IsStraight printed.lengths.items printed.text.items }
    ensures { IsMade printed.text.items result }
{
    match make(alloc, printed) {
        Ok(image) => match write_elf(alloc, &image) {
            Ok(bytes) => Built::Elf(bytes),
            Err(_) => Built::NoMemory,
        },
        Err(_) => Built::NoMemory,
    }
}

// The ELF file that all passes make of a typed tree.
fn passed(alloc: Global, typed: &Typed, arena: u64) -> Built
    requires bare { IsBare typed.now.bare }
    requires arena { IsArena arena }
    ensures { IsPassed typed.now arena result }
{
    match image(alloc, typed, arena) {
        Ok(image) => file_of(alloc, &image),
        Err(_) => Built::NoMemory,
    }
}

// The ELF file of an image, where it isn't too long.
fn file_of(alloc: Global, image: &Image) -> Built
    requires { IsLaidOut image.now }
    ensures { IsFileOf image.now result }
{
    match write_elf(alloc, image) {
        Ok(bytes) => {
            if bytes.len() <= BYTES {
                Built::Elf(bytes)
            } else {
                Built::NoMemory
            }
        }
        Err(_) => Built::NoMemory,
    }
}

fn refuse(alloc: Global, names: &[&str], refusal: Refusal) -> Built
    ensures { IsRefusal (map (λ name. name.now) names.now) refusal result }
{
    match refused_text(alloc, names, &refusal) {
        Ok(line) => Built::Refused(line),
        Err(_) => Built::NoMemory,
    }
}
