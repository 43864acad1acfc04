//! The whole text.

ghost use Rattle.std.specs.Prelude.{◌≡◌, IfOk};
ghost use Rattle.generator.specs.Text.{next, program_text};

use crate::lines::{put_last, put_line};
use smlc_base::NoMemory;
use std::alloc::Global;

/// The number behind one, modulo 2^64.
fn next(x: u64) -> u64
    ensures { result ≡ next x }
{
    x.wrapping_mul(6_364_136_223_846_793_005)
        .wrapping_add(1_442_695_040_888_963_407)
}

/// The text of the program of this number, with so many functions, of which the last is applied.
pub fn program(alloc: Global, number: u64, size: u64) -> Result<Vec<u8>, NoMemory>
    ensures { IfOk result (λ text. text.items ≡ program_text number size) }
{
    let mut text = Vec::new(alloc);
    let mut x = number;
    for i in 0..size {
        x = next(x);
        let drawn = x / 4_294_967_296;
        put_line(&mut text, i, drawn)?;
    }
    put_last(&mut text, size.saturating_sub(1))?;
    Ok(text)
}
