//! String and character constants.

ghost use Rattle.std.specs.Prelude.{◌≡◌, ◌≤◌, ◌<◌, ◌+◌, ◌^◌, ◌||◌, length, drop, IfOk};
ghost use Rattle.sml_lexer.specs.Quoted.{letter_escape};
ghost use Rattle.sml_lexer.specs.QuotedScan.{caret_at, digits_at, gap_at, escape_at, item_at};
ghost use Rattle.sml_lexer.specs.QuotedRead.{low_byte, first_of, IsRead, Ends};

use crate::bytes::{ByteClass, is_control, is_digit, is_space, rest, run};
use crate::integer::number;
use smlc_base::NoMemory;
use std::alloc::Global;

/// What stands at a byte behind the opening quote.
#[derive(Clone, Copy)]
pub enum Item {
    /// A character of `len` bytes.
    Char { code: u64, len: usize },
    /// A gap of `len` bytes.
    Gap { len: usize },
    /// A control byte, which may not stand there.
    Control,
    /// The closing quote.
    Close,
    /// A newline, or the end of the bytes, perhaps in the middle of an escape.
    Open,
    /// An unknown escape.
    Unknown,
}

#[tactic(auto, unfolding(crate::specs::Quoted::letter_escape))]
fn letter_escape(c: u8) -> Option<u8>
    ensures { result ≡ letter_escape c }
{
    match c {
        b'a' => Some(7),
        b'b' => Some(8),
        b't' => Some(9),
        b'n' => Some(10),
        b'v' => Some(11),
        b'f' => Some(12),
        b'r' => Some(13),
        b'"' => Some(34),
        b'\\' => Some(92),
        _ => None,
    }
}

/// Behind `\^`.
#[tactic(auto, unfolding(crate::specs::QuotedScan::caret_at))]
fn caret_at(bytes: &[u8]) -> Item
    ensures { result ≡ caret_at bytes.now }
{
    if bytes.is_empty() {
        return Item::Open;
    }
    let c = bytes[0];
    if 64 <= c && c <= 95 {
        Item::Char {
            code: u64::from(c - 64),
            len: 3,
        }
    } else {
        Item::Unknown
    }
}

/// So many digits of a class, behind `before` bytes of an escape.
#[tactic(auto, unfolding(crate::specs::QuotedScan::digits_at))]
fn digits_at(bytes: &[u8], class: ByteClass, base: u64, count: usize, before: usize) -> Item
    requires base { 1 ≤ base }
    requires small { before + count < 16 }
    ensures { result ≡ digits_at class base count before bytes.now }
{
    let found = run(class, bytes);
    if found >= count {
        Item::Char {
            code: number(base, &bytes[..count]),
            len: before + count,
        }
    } else if found == bytes.len() {
        Item::Open
    } else {
        Item::Unknown
    }
}

/// Behind a backslash and at white space.
#[tactic(auto, unfolding(crate::specs::QuotedScan::gap_at))]
fn gap_at(bytes: &[u8]) -> Item
    requires { length bytes.now < 2 ^ 63 }
    ensures { result ≡ gap_at bytes.now }
{
    let found = run(ByteClass::Space, bytes);
    if found == bytes.len() {
        Item::Open
    } else if bytes[found] == b'\\' {
        Item::Gap { len: found + 2 }
    } else {
        Item::Unknown
    }
}

/// Behind a backslash.
#[tactic(auto, unfolding(crate::specs::QuotedScan::escape_at))]
fn escape_at(bytes: &[u8]) -> Item
    requires { length bytes.now < 2 ^ 63 }
    ensures { result ≡ escape_at bytes.now }
{
    if bytes.is_empty() {
        return Item::Open;
    }
    let c = bytes[0];
    if let Some(code) = letter_escape(c) {
        return Item::Char {
            code: u64::from(code),
            len: 2,
        };
    }
    if c == b'^' {
        caret_at(rest(bytes, 1))
    } else if is_digit(c) {
        digits_at(bytes, ByteClass::Digit, 10, 3, 1)
    } else if c == b'u' {
        digits_at(rest(bytes, 1), ByteClass::Hexadecimal, 16, 4, 2)
    } else if is_space(c) {
        gap_at(bytes)
    } else {
        Item::Unknown
    }
}

/// What stands at the front.
#[tactic(auto, unfolding(crate::specs::QuotedScan::item_at))]
fn item_at(bytes: &[u8]) -> Item
    requires { length bytes.now < 2 ^ 63 }
    ensures { result ≡ item_at bytes.now }
{
    if bytes.is_empty() {
        return Item::Open;
    }
    let c = bytes[0];
    if c == b'"' {
        Item::Close
    } else if c == b'\n' {
        Item::Open
    } else if is_control(c) {
        Item::Control
    } else if c == b'\\' {
        escape_at(rest(bytes, 1))
    } else {
        Item::Char {
            code: u64::from(c),
            len: 1,
        }
    }
}

/// How a constant ends.
#[derive(Clone, Copy)]
pub enum Ending {
    Closed,
    Open,
    Unknown,
}

/// What was read behind the opening quote: `len` bytes up to its end, and their characters, with 0 for one out of range.
#[derive(Drop)]
pub struct Quoted {
    pub len: usize,
    pub value: Vec<u8>,
    /// Whether a character is out of range.
    pub wide: bool,
    /// Where the first control byte stands.
    pub stray: Option<usize>,
    pub ending: Ending,
}

fn low_byte(code: u64) -> u8
    ensures { result ≡ low_byte code }
{
    if code > 255 { 0 } else { code as u8 }
}

fn either(first: bool, second: bool) -> bool
    ensures { result ≡ (first || second) }
{
    first || second
}

fn first_of(earlier: Option<usize>, at: usize) -> Option<usize>
    ensures { result ≡ first_of earlier at }
{
    match earlier {
        Some(place) => Some(place),
        None => Some(at),
    }
}

/// Reads a constant behind its opening quote.
pub fn read_quoted(alloc: Global, bytes: &[u8]) -> Result<Quoted, NoMemory>
    ensures read { IfOk result (λ q. IsRead bytes.now q.len q.value.items q.wide q.stray) }
    ensures ends { IfOk result (λ q. Ends q.ending (drop q.len bytes.now)) }
{
    let mut value = Vec::new(alloc);
    let mut wide = false;
    let mut stray = None;
    let mut at = 0usize;
    'parts: loop {
        match item_at(rest(bytes, at)) {
            Item::Char { code, len } => {
                value.push(low_byte(code))?;
                wide = either(wide, code > 255);
                at += len;
            }
            Item::Gap { len } => at += len,
            Item::Control => {
                stray = first_of(stray, at);
                at += 1;
            }
            Item::Close => {
                return Ok(Quoted {
                    len: at,
                    value,
                    wide,
                    stray,
                    ending: Ending::Closed,
                });
            }
            Item::Open => {
                return Ok(Quoted {
                    len: at,
                    value,
                    wide,
                    stray,
                    ending: Ending::Open,
                });
            }
            Item::Unknown => {
                return Ok(Quoted {
                    len: at,
                    value,
                    wide,
                    stray,
                    ending: Ending::Unknown,
                });
            }
        }
    }
}
