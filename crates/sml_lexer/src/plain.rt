//! The spelling at the front of some bytes, of every token but the constants in quotes.

ghost use Rattle.std.specs.Prelude.{◌≡◌, ◌+◌, ◌≤◌, ◌<◌, length, drop, IfSome};
ghost use Rattle.std.specs.List.{prefix_len};
ghost use Rattle.sml_lexer.specs.Bytes.{is_digit, is_hexadecimal};
ghost use Rattle.sml_lexer.specs.Classes.{in_class};
ghost use Rattle.sml_lexer.specs.PlainScan.{kept, part_at, long_len, word_at, sign_at, prefixed_len, hexadecimal_word_len, fraction_len, decimal_len, exponent_len, real_len, unsigned_at, negative_at, point_at, plain_at};

use crate::bytes::{ByteClass, byte_at, is_digit, is_letter, is_sign, rest, run};
use crate::reserved::{Reserved, reserved_of};

/// The kind of a spelling.
#[derive(Clone, Copy)]
pub enum Class {
    Word(Reserved),
    Id,
    Symbol,
    Long,
    TyVar,
    Int,
    WordLit,
    Real,
}

/// A spelling of `len` bytes.
#[derive(Clone, Copy)]
pub struct Found {
    pub len: usize,
    pub class: Class,
}

/// What may follow a dot of a long identifier: `len` bytes, 0 for nothing. Another dot may follow where it goes on.
#[derive(Clone, Copy)]
pub struct AfterDot {
    pub len: usize,
    pub goes_on: bool,
}

/// The length of the longest front of at most `len` bytes that is no reserved word.
fn kept(bytes: &[u8], len: usize) -> usize
    requires { len ≤ length bytes.now }
    ensures value { result ≡ kept bytes.now len }
    ensures bound { result ≤ len }
{
    let mut left = len;
    while left > 0 && reserved_of(&bytes[..left]).is_some() {
        left -= 1;
    }
    left
}

#[tactic(auto, unfolding(crate::specs::PlainScan::part_at))]
fn part_at(bytes: &[u8]) -> AfterDot
    ensures value { result ≡ part_at bytes.now }
    ensures bound { result.len ≤ length bytes.now }
{
    let first = byte_at(bytes, 0);
    if is_letter(first) {
        let len = run(ByteClass::Alphanumeric, bytes);
        if reserved_of(&bytes[..len]).is_some() {
            AfterDot {
                len: kept(bytes, len),
                goes_on: false,
            }
        } else {
            AfterDot { len, goes_on: true }
        }
    } else {
        let len = run(ByteClass::Sign, bytes);
        AfterDot {
            len: kept(bytes, len),
            goes_on: false,
        }
    }
}

/// The length of the longest identifier or long identifier that begins with an identifier of `first` bytes.
fn long_len(bytes: &[u8], first: usize) -> usize
    requires { first ≤ length bytes.now }
    ensures value { result ≡ long_len bytes.now first }
    ensures bound { result ≤ length bytes.now }
{
    let mut end = first;
    while byte_at(bytes, end) == b'.' {
        let part = part_at(&bytes[end + 1..]);
        if part.len == 0 {
            return end;
        }
        end = end + 1 + part.len;
        if !part.goes_on {
            return end;
        }
    }
    end
}

/// A reserved word, an identifier or a long identifier, at bytes that begin with a letter.
#[tactic(auto, unfolding(crate::specs::PlainScan::word_at))]
fn word_at(bytes: &[u8]) -> Found
    ensures value { result ≡ word_at bytes.now }
    ensures bound { result.len ≤ length bytes.now }
{
    let first = run(ByteClass::Alphanumeric, bytes);
    match reserved_of(&bytes[..first]) {
        Some(word) => Found {
            len: first,
            class: Class::Word(word),
        },
        None => {
            let len = long_len(bytes, first);
            let class = if len == first { Class::Id } else { Class::Long };
            Found { len, class }
        }
    }
}

/// A reserved word or a symbolic identifier, at bytes that begin with a sign.
#[tactic(auto, unfolding(crate::specs::PlainScan::sign_at))]
fn sign_at(bytes: &[u8]) -> Found
    ensures value { result ≡ sign_at bytes.now }
    ensures bound { result.len ≤ length bytes.now }
{
    let len = run(ByteClass::Sign, bytes);
    match reserved_of(&bytes[..len]) {
        Some(word) => Found {
            len,
            class: Class::Word(word),
        },
        None => Found {
            len,
            class: Class::Symbol,
        },
    }
}

/// Behind `0` and the letter, the length of the run of the class; 0 without them.
#[tactic(auto, unfolding(crate::specs::PlainScan::prefixed_len))]
fn prefixed_len(bytes: &[u8], letter: u8, class: ByteClass) -> usize
    ensures value { result ≡ prefixed_len letter class bytes.now }
    ensures bound { 0 < result → 2 + result ≤ length bytes.now }
{
    if bytes.len() >= 2 && bytes[0] == b'0' && bytes[1] == letter {
        run(class, rest(bytes, 2))
    } else {
        0
    }
}

/// Behind `0wx`, the length of the run of hexadecimal digits; 0 without them.
#[tactic(auto, unfolding(crate::specs::PlainScan::hexadecimal_word_len))]
fn hexadecimal_word_len(bytes: &[u8]) -> usize
    ensures value { result ≡ hexadecimal_word_len bytes.now }
    ensures bound { 0 < result → 3 + result ≤ length bytes.now }
{
    if bytes.len() >= 3 && bytes[0] == b'0' && bytes[1] == b'w' && bytes[2] == b'x' {
        run(ByteClass::Hexadecimal, rest(bytes, 3))
    } else {
        0
    }
}

/// The length of a dot with digits behind it, or 0.
#[tactic(auto, unfolding(crate::specs::PlainScan::fraction_len))]
fn fraction_len(bytes: &[u8]) -> usize
    ensures value { result ≡ fraction_len bytes.now }
    ensures bound { result ≤ length bytes.now }
{
    if bytes.len() >= 1 && bytes[0] == b'.' {
        let digits = run(ByteClass::Digit, rest(bytes, 1));
        if digits > 0 { digits + 1 } else { 0 }
    } else {
        0
    }
}

/// The length of digits, perhaps behind a `~`, or 0.
#[tactic(auto, unfolding(crate::specs::PlainScan::decimal_len))]
fn decimal_len(bytes: &[u8]) -> usize
    ensures value { result ≡ decimal_len bytes.now }
    ensures bound { result ≤ length bytes.now }
{
    if bytes.len() >= 1 && bytes[0] == b'~' {
        let digits = run(ByteClass::Digit, rest(bytes, 1));
        if digits > 0 { digits + 1 } else { 0 }
    } else {
        run(ByteClass::Digit, bytes)
    }
}

/// The length of an exponent, or 0.
#[tactic(auto, unfolding(crate::specs::PlainScan::exponent_len))]
fn exponent_len(bytes: &[u8]) -> usize
    ensures value { result ≡ exponent_len bytes.now }
    ensures bound { result ≤ length bytes.now }
{
    if bytes.len() >= 1 && (bytes[0] == b'e' || bytes[0] == b'E') {
        let decimal = decimal_len(rest(bytes, 1));
        if decimal > 0 { decimal + 1 } else { 0 }
    } else {
        0
    }
}

/// The length of what makes digits a real constant: a fraction, an exponent or both, or 0.
#[tactic(auto, unfolding(crate::specs::PlainScan::real_len))]
fn real_len(bytes: &[u8]) -> usize
    ensures value { result ≡ real_len bytes.now }
    ensures bound { result ≤ length bytes.now }
{
    let fraction = fraction_len(bytes);
    let exponent = exponent_len(rest(bytes, fraction));
    fraction + exponent
}

/// A constant at bytes that begin with a digit; a word constant only where no `~` stands before it.
#[tactic(auto, unfolding(crate::specs::PlainScan::unsigned_at))]
fn unsigned_at(bytes: &[u8], negative: bool) -> Found
    ensures value { result ≡ unsigned_at negative bytes.now }
    ensures bound { result.len ≤ length bytes.now }
{
    let hexadecimal = prefixed_len(bytes, b'x', ByteClass::Hexadecimal);
    if hexadecimal > 0 {
        return Found {
            len: 2 + hexadecimal,
            class: Class::Int,
        };
    }
    let hexadecimal_word = hexadecimal_word_len(bytes);
    if !negative && hexadecimal_word > 0 {
        return Found {
            len: 3 + hexadecimal_word,
            class: Class::WordLit,
        };
    }
    let word = prefixed_len(bytes, b'w', ByteClass::Digit);
    if !negative && word > 0 {
        return Found {
            len: 2 + word,
            class: Class::WordLit,
        };
    }
    let digits = run(ByteClass::Digit, bytes);
    let real = real_len(rest(bytes, digits));
    if real > 0 {
        Found {
            len: digits + real,
            class: Class::Real,
        }
    } else {
        Found {
            len: digits,
            class: Class::Int,
        }
    }
}

/// A constant behind a `~`.
#[tactic(auto, unfolding(crate::specs::PlainScan::negative_at))]
fn negative_at(bytes: &[u8]) -> Found
    requires { 0 < length bytes.now }
    ensures value { result ≡ negative_at bytes.now }
    ensures bound { result.len ≤ length bytes.now }
{
    let found = unsigned_at(rest(bytes, 1), true);
    Found {
        len: 1 + found.len,
        class: found.class,
    }
}

/// A reserved word that is one byte or three dots.
#[tactic(auto, unfolding(crate::specs::PlainScan::point_at))]
fn point_at(bytes: &[u8]) -> Option<Found>
    requires { 0 < length bytes.now }
    ensures value { result ≡ point_at bytes.now }
    ensures bound { IfSome result (λ found. found.len ≤ length bytes.now) }
{
    if bytes.len() >= 3 && bytes[0] == b'.' && bytes[1] == b'.' && bytes[2] == b'.' {
        return Some(Found {
            len: 3,
            class: Class::Word(Reserved::KwDots),
        });
    }
    match reserved_of(&bytes[..1]) {
        Some(word) => Some(Found {
            len: 1,
            class: Class::Word(word),
        }),
        None => None,
    }
}

/// The longest spelling at the front, if there is one.
#[tactic(auto, unfolding(crate::specs::PlainScan::plain_at))]
pub fn plain_at(bytes: &[u8]) -> Option<Found>
    requires { 0 < length bytes.now }
    ensures value { result ≡ plain_at bytes.now }
    ensures bound { IfSome result (λ found. found.len ≤ length bytes.now) }
{
    let first = bytes[0];
    if is_letter(first) {
        Some(word_at(bytes))
    } else if is_digit(first) {
        Some(unsigned_at(bytes, false))
    } else if first == b'\'' {
        Some(Found {
            len: run(ByteClass::Alphanumeric, bytes),
            class: Class::TyVar,
        })
    } else if first == b'~' && is_digit(byte_at(bytes, 1)) {
        Some(negative_at(bytes))
    } else if is_sign(first) {
        Some(sign_at(bytes))
    } else {
        point_at(bytes)
    }
}
