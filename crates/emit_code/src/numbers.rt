//! Parts of numbers of 64 bits, and sums. What would have 2^32 words or more is in no memory.

ghost use Rattle.std.specs.Prelude.{◌≡◌, ◌≤◌, ◌<◌, ◌+◌, ◌*◌, ◌/◌, ◌%◌, suc, IfOk};
ghost use Rattle.rv_isa.specs.Word.{signed};
ghost use Rattle.emit_items.specs.Constants.{lower, upper, upper_immediate, is_short, is_medium, scalar};

use smlc_base::NoMemory;

/// The sum, if it fits.
pub fn sum(a: u32, b: u32) -> Result<u32, NoMemory>
    ensures { IfOk result (λ c. c ≡ a + b) }
{
    match a.checked_add(b) {
        Some(c) => Ok(c),
        None => Err(NoMemory),
    }
}

/// The number that stands in two's complement, where there are 2 * half numbers.
fn to_signed(half: u32, n: u32) -> i32
    requires half { half ≤ 2147483648 }
    requires below { n < 2 * half }
    ensures { result ≡ signed half n }
{
    if n < half {
        n as i32
    } else {
        (n as i64 - 2 * half as i64) as i32
    }
}

/// The lower part, which ADDI adds.
pub(crate) fn lower(v: u64) -> i32
    ensures { result ≡ lower v }
{
    to_signed(2048, (v % 4096) as u32)
}

/// The upper part, in units of 4,096.
pub(crate) fn upper(v: u64) -> u64
    requires { v < 18446744073709549568 }
    ensures { result ≡ upper v }
{
    (v + 2048) / 4096
}

/// The upper part as the immediate of LUI and AUIPC.
pub(crate) fn upper_immediate(v: u64) -> i32
    requires { v < 18446744073709549568 }
    ensures { result ≡ upper_immediate v }
{
    to_signed(0x8000_0000, (upper(v) * 4096 % 0x1_0000_0000) as u32)
}

/// Whether one instruction loads it.
pub(crate) fn is_short(v: u64) -> bool
    ensures { result ≡ is_short v }
{
    v < 2048 || v >= 0xffff_ffff_ffff_f800
}

/// Whether two instructions load it.
pub(crate) fn is_medium(v: u64) -> bool
    ensures { result ≡ is_medium v }
{
    v < 0x7fff_f800 || v >= 0xffff_ffff_7fff_f800
}

/// The word that stands for a scalar.
pub(crate) fn scalar(number: i64) -> u64
    ensures { result ≡ scalar number }
{
    number.cast_unsigned().wrapping_mul(2).wrapping_add(1)
}
