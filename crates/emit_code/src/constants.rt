//! Numbers that come into registers.

ghost use Rattle.std.specs.Prelude.{◌≡◌, ◌<◌, ◌∷◌, ◌++◌, pos, OnOk};
ghost use Rattle.rv_isa.specs.declared.table.Op.TheVariants.{Slli};
ghost use Rattle.emit_items.specs.Items.{i_item};
ghost use Rattle.emit_items.specs.Constants.{lower_added, medium_loaded, long_loaded, loaded, scalar};

use crate::items::{i, u};
use crate::numbers::{is_medium, is_short, lower, scalar, upper, upper_immediate};
use rv_asm::Item;
use rv_isa::Op::{Addi, Lui, Slli};
use smlc_base::NoMemory;

fn add_lower(items: &mut Vec<Item>, rd: u8, v: u64) -> Result<(), NoMemory>
    ensures { OnOk result (items.new.items ≡ items.old.items ++ lower_added rd v) }
{
    if v % 4096 == 0 {
        Ok(())
    } else {
        Ok(items.push(i(Addi, rd, rd, lower(v)))?)
    }
}

fn load_medium(items: &mut Vec<Item>, rd: u8, v: u64) -> Result<(), NoMemory>
    requires { v < 18446744073709549568 }
    ensures { OnOk result (items.new.items ≡ items.old.items ++ medium_loaded rd v) }
{
    items.push(u(Lui, rd, upper_immediate(v)))?;
    add_lower(items, rd, v)
}

// What a level puts behind that of the upper part.
fn add_level(items: &mut Vec<Item>, rd: u8, v: u64) -> Result<(), NoMemory>
    ensures { OnOk result (items.new.items ≡ items.old.items ++ i_item Slli rd rd (pos 12) ∷ lower_added rd v) }
{
    items.push(i(Slli, rd, rd, 12))?;
    add_lower(items, rd, v)
}

#[tactic(auto, using(crate::proofs::Loads::next_level))]
fn load_long(items: &mut Vec<Item>, levels: u32, rd: u8, v: u64) -> Result<(), NoMemory>
    requires { v < 18446744073709549568 }
    ensures { OnOk result (items.new.items ≡ items.old.items ++ long_loaded levels rd v) }
{
    if levels == 0 || is_medium(v) {
        return load_medium(items, rd, v);
    }
    load_long(items, levels - 1, rd, upper(v))?;
    add_level(items, rd, v)
}

/// The register becomes the number.
pub fn load(items: &mut Vec<Item>, rd: u8, v: u64) -> Result<(), NoMemory>
    ensures { OnOk result (items.new.items ≡ items.old.items ++ loaded rd v) }
{
    if is_short(v) {
        Ok(items.push(i(Addi, rd, 0, lower(v)))?)
    } else {
        load_long(items, 3, rd, v)
    }
}

/// The register gets the word of the scalar.
pub fn load_scalar(items: &mut Vec<Item>, rd: u8, number: i64) -> Result<(), NoMemory>
    ensures { OnOk result (items.new.items ≡ items.old.items ++ loaded rd (scalar number)) }
{
    load(items, rd, scalar(number))
}
