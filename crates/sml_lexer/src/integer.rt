//! The value of an integer constant, and of digits.

ghost use Rattle.std.specs.Prelude.{◌≡◌, ◌^◌, ◌+◌, ◌≤◌, min, SomeIff};
ghost use Rattle.sml_lexer.specs.Meanings.{IsInRange};
ghost use Rattle.sml_lexer.specs.Numbers.{digit_value, number_of, is_numeral};
ghost use Rattle.sml_lexer.specs.IntegerScan.{magnitude_of, integer_of};

use crate::bytes::{ByteClass, run};

/// One more than the greatest magnitude of an integer constant.
const LIMIT: u64 = 0x4000_0000_0000_0001;

#[tactic(auto, unfolding(crate::specs::Numbers::digit_value))]
fn digit_value(c: u8) -> u64
    ensures value { result ≡ digit_value c }
    ensures bound { result ≤ 255 }
{
    if c <= b'9' {
        u64::from(c.saturating_sub(b'0'))
    } else if c <= b'F' {
        u64::from(c - 55)
    } else {
        u64::from(c.saturating_sub(87))
    }
}

/// The number that the digits stand for, or `LIMIT` if it is greater.
pub fn number(base: u64, digits: &[u8]) -> u64
    requires { 1 ≤ base }
    ensures { result ≡ min LIMIT (number_of base digits.now) }
{
    let mut value = 0u64;
    for c in digits {
        value = value
            .saturating_mul(base)
            .saturating_add(digit_value(*c))
            .min(LIMIT);
    }
    value
}

#[tactic(auto, unfolding(crate::specs::IntegerScan::magnitude_of))]
fn magnitude(digits: &[u8]) -> u64
    ensures { result ≡ min LIMIT (magnitude_of digits.now) }
{
    if digits.len() >= 2 && digits[0] == b'0' && digits[1] == b'x' {
        number(16, &digits[2..])
    } else {
        number(10, digits)
    }
}

/// The value of an integer constant, if it has 63 bits.
#[tactic(auto, unfolding(crate::specs::IntegerScan::integer_of))]
pub fn integer(text: &[u8]) -> Option<i64>
    ensures { SomeIff result (IsInRange (integer_of text.now)) (integer_of text.now) }
{
    if text.len() >= 1 && text[0] == b'~' {
        let value = magnitude(&text[1..]);
        if value < LIMIT {
            Some(-(value as i64))
        } else {
            None
        }
    } else {
        let value = magnitude(text);
        if value < LIMIT - 1 {
            Some(value as i64)
        } else {
            None
        }
    }
}

/// Whether the text is decimal digits alone, the first of them not 0.
#[tactic(auto, unfolding(crate::specs::Numbers::is_numeral))]
pub fn is_numeral(text: &[u8]) -> bool
    ensures { result ≡ is_numeral text.now }
{
    if text.len() >= 1 && text[0] != b'0' {
        run(ByteClass::Digit, text) == text.len()
    } else {
        false
    }
}
