//! Words of groups of blocks. What would have 2^32 words or more is in no memory.

ghost use Rattle.std.specs.Prelude.{◌≡◌, suc, ◌+◌, length, map, IfOk};
ghost use Rattle.placed_ir.specs.Arena.{offset_in};
ghost use Rattle.place_laws.specs.Place.{maker_length};

use closure_ir::Maker;
use smlc_base::NoMemory;

/// The sum, if it fits.
pub(crate) fn sum(a: u32, b: u32) -> Result<u32, NoMemory>
    ensures { IfOk result (λ c. c ≡ a + b) }
{
    match a.checked_add(b) {
        Some(c) => Ok(c),
        None => Err(NoMemory),
    }
}

/// The words of a block with its header.
pub(crate) fn words(maker: &Maker) -> Result<u32, NoMemory>
    ensures { IfOk result (λ n. n ≡ suc (maker_length maker.now)) }
{
    let n = maker.fields.len();
    if n < 4_294_967_295 {
        Ok(n as u32 + 1)
    } else {
        Err(NoMemory)
    }
}

/// How many words behind the first block of a group the block of this number begins.
pub(crate) fn offset(makers: &[Maker], k: u32) -> Result<u32, NoMemory>
    ensures { IfOk result (λ n. n ≡ offset_in (map maker_length makers.now) k) }
{
    let mut total = 0;
    let mut left = k;
    for maker in makers {
        if left == 0 {
            return Ok(total);
        }
        total = sum(total, words(maker)?)?;
        left -= 1;
    }
    Ok(total)
}
