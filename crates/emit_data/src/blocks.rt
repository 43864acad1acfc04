//! The static blocks.

ghost use Rattle.std.specs.Prelude.{◌≡◌, ◌≤◌, ◌<◌, ◌+◌, ◌++◌, ◌^◌, length, get_or, IfOk, OnOk};
ghost use Rattle.std.specs.List.{All, flat_map};
ghost use Rattle.emit_text.specs.Labels.{routines_label, labels_of};
ghost use Rattle.emit_data.specs.Blocks.{string_block, name_block, code_block, names_from, closures_from, handler_tag, exceptions, read_only};

use crate::names::{BACK, EXCEPTIONS, FRONT, spelling};
use crate::words::{header, put_string, put_word};
use emit_items::Labels;
use placed_ir::Placed;
use rt_prims::Routine;
use smlc_base::{Bytes, LibraryExn, NoMemory};
use std::alloc::Global;

/// The tag of the handler that ends the run.
const HANDLER_TAG: u64 = 0x1fff_fffe;

fn put_strings(bytes: &mut Vec<u8>, texts: &[Bytes]) -> Result<(), NoMemory>
    ensures { OnOk result (bytes.new.items ≡ bytes.old.items ++ flat_map string_block texts.now) }
{
    for text in texts {
        put_string(bytes, text.items())?;
    }
    Ok(())
}

// The name of an exception, whose label has this address.
#[tactic(auto, unfolding(crate::specs::Blocks::name_block))]
fn put_name(bytes: &mut Vec<u8>, address: u64, text: &[u8]) -> Result<(), NoMemory>
    requires { address < 2 ^ 63 }
    ensures { OnOk result (bytes.new.items ≡ bytes.old.items ++ name_block address text.now) }
{
    put_word(bytes, header(4, 0, 1))?;
    put_word(bytes, address + 16)?;
    put_string(bytes, text)
}

fn put_names(
    bytes: &mut Vec<u8>,
    first: usize,
    at: &[u64],
    exns: &[LibraryExn],
) -> Result<(), NoMemory>
    requires room { first + length exns.now ≤ length at.now }
    requires low { All (λ a. a < 2 ^ 63) at.now }
    ensures { OnOk result (bytes.new.items ≡ bytes.old.items ++ names_from (λ l. get_or at.now l 0) first exns.now) }
{
    let mut label = first;
    for exn in exns {
        put_name(bytes, at[label], spelling(*exn))?;
        label += 1;
    }
    Ok(())
}

#[tactic(auto, unfolding(crate::specs::Blocks::code_block))]
fn put_code(bytes: &mut Vec<u8>, tag: u64, address: u64) -> Result<(), NoMemory>
    requires { tag < 2 ^ 40 }
    ensures { OnOk result (bytes.new.items ≡ bytes.old.items ++ code_block tag address) }
{
    put_word(bytes, header(6, tag, 1))?;
    put_word(bytes, address)
}

fn put_closures(bytes: &mut Vec<u8>, count: u32, at: &[u64]) -> Result<(), NoMemory>
    requires { count ≤ length at.now }
    ensures { OnOk result (bytes.new.items ≡ bytes.old.items ++ closures_from (λ l. get_or at.now l 0) count 0) }
{
    for label in 0..count {
        put_code(bytes, label as u64, at[label as usize])?;
    }
    Ok(())
}

/// The static blocks of a program whose labels have these addresses.
///
/// # Errors
///
/// Want of memory.
pub fn read_only(
    alloc: Global,
    labels: &Labels,
    placed: &Placed,
    at: &[u64],
) -> Result<Vec<u8>, NoMemory>
    requires labels { labels.now ≡ labels_of placed.now }
    requires all { routines_label placed.now + 28 ≤ length at.now }
    requires low { All (λ a. a < 2 ^ 63) at.now }
    ensures { IfOk result (λ bytes. bytes.items ≡ read_only placed.now (λ l. get_or at.now l 0)) }
{
    let handler = at[labels.routines as usize + Routine::Uncaught.number() as usize];
    let mut bytes = Vec::new(alloc);
    put_strings(&mut bytes, placed.texts())?;
    put_strings(&mut bytes, placed.exns())?;
    put_names(&mut bytes, labels.names as usize, at, &EXCEPTIONS)?;
    put_closures(&mut bytes, labels.texts - 1, at)?;
    put_code(&mut bytes, HANDLER_TAG, handler)?;
    put_string(&mut bytes, FRONT)?;
    put_string(&mut bytes, BACK)?;
    Ok(bytes)
}
