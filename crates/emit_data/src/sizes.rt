//! The words of static blocks.

ghost use Rattle.std.specs.Prelude.{◌≡◌, ◌++◌, map, IfOk, OnOk};
ghost use Rattle.emit_text.specs.Text.{total};
ghost use Rattle.emit_data.specs.Blocks.{string_words, name_words, code_words, exceptions};
ghost use Rattle.emit_data.specs.Places.{block_words};

use crate::names::{EXCEPTIONS, spelling};
use emit_code::numbers::sum;
use placed_ir::{Function, Placed};
use smlc_base::{Bytes, LibraryExn, NoMemory};
use std::alloc::Global;

/// The words of a string with its header.
///
/// # Errors
///
/// Want of memory, where there are 2^32 or more.
pub fn string_words(text: &[u8]) -> Result<u32, NoMemory>
    ensures { IfOk result (λ n. n ≡ string_words text.now) }
{
    match u32::try_from(text.len() / 8) {
        Ok(words) => sum(words, if text.len() % 8 == 0 { 1 } else { 2 }),
        Err(_) => Err(NoMemory),
    }
}

fn name_words(exn: LibraryExn) -> Result<u32, NoMemory>
    ensures { IfOk result (λ n. n ≡ name_words exn) }
{
    sum(2, string_words(spelling(exn))?)
}

fn push_strings(sizes: &mut Vec<u32>, texts: &[Bytes]) -> Result<(), NoMemory>
    ensures { OnOk result (sizes.new.items ≡ sizes.old.items ++ map string_words texts.now) }
{
    for text in texts {
        sizes.push(string_words(text.items())?)?;
    }
    Ok(())
}

fn push_names(sizes: &mut Vec<u32>, exns: &[LibraryExn]) -> Result<(), NoMemory>
    ensures { OnOk result (sizes.new.items ≡ sizes.old.items ++ map name_words exns.now) }
{
    for exn in exns {
        sizes.push(name_words(*exn)?)?;
    }
    Ok(())
}

fn push_functions(sizes: &mut Vec<u32>, functions: &[Function]) -> Result<(), NoMemory>
    ensures { OnOk result (sizes.new.items ≡ sizes.old.items ++ map (λ f. code_words) functions.now) }
{
    for _ in functions {
        sizes.push(2)?;
    }
    Ok(())
}

/// The words of the static blocks that have labels of their own, as they stand.
///
/// # Errors
///
/// Want of memory.
pub fn block_words(alloc: Global, placed: &Placed) -> Result<Vec<u32>, NoMemory>
    ensures { IfOk result (λ sizes. sizes.items ≡ block_words placed.now) }
{
    let mut sizes = Vec::new(alloc);
    push_strings(&mut sizes, placed.texts())?;
    push_strings(&mut sizes, placed.exns())?;
    push_names(&mut sizes, &EXCEPTIONS)?;
    push_functions(&mut sizes, placed.functions())?;
    sizes.push(2)?;
    Ok(sizes)
}

/// The sum, if it fits.
///
/// # Errors
///
/// Want of memory, where it is 2^32 or more.
pub fn total(sizes: &[u32]) -> Result<u32, NoMemory>
    ensures { IfOk result (λ n. n ≡ total sizes.now) }
{
    let mut all = 0;
    for size in sizes {
        all = sum(all, *size)?;
    }
    Ok(all)
}
