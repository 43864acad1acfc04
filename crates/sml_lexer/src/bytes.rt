//! Classes of bytes, and runs of a class.

ghost use Rattle.std.specs.Prelude.{◌≡◌, ◌≤◌, length, take, drop, slice_index};
ghost use Rattle.std.specs.List.{prefix_len};
ghost use Rattle.sml_lexer.specs.Bytes.{is_letter, is_digit, is_hexadecimal, is_alphanumeric, is_sign, is_space, is_control};
ghost use Rattle.sml_lexer.specs.Classes.{in_class};

/// A class of bytes that come in runs.
#[derive(Clone, Copy)]
pub enum ByteClass {
    Digit,
    Hexadecimal,
    Alphanumeric,
    Sign,
    Space,
}

#[tactic(auto, unfolding(crate::specs::Bytes::is_letter))]
pub fn is_letter(c: u8) -> bool
    ensures { result ≡ is_letter c }
{
    (b'A' <= c && c <= b'Z') || (b'a' <= c && c <= b'z')
}

#[tactic(auto, unfolding(crate::specs::Bytes::is_digit))]
pub fn is_digit(c: u8) -> bool
    ensures { result ≡ is_digit c }
{
    b'0' <= c && c <= b'9'
}

#[tactic(auto, unfolding(crate::specs::Bytes::is_hexadecimal))]
fn is_hexadecimal(c: u8) -> bool
    ensures { result ≡ is_hexadecimal c }
{
    (b'0' <= c && c <= b'9') || (b'A' <= c && c <= b'F') || (b'a' <= c && c <= b'f')
}

#[tactic(auto, unfolding(crate::specs::Bytes::is_alphanumeric))]
fn is_alphanumeric(c: u8) -> bool
    ensures { result ≡ is_alphanumeric c }
{
    (b'A' <= c && c <= b'Z')
        || (b'a' <= c && c <= b'z')
        || (b'0' <= c && c <= b'9')
        || c == b'\''
        || c == b'_'
}

#[tactic(auto, unfolding(crate::specs::Bytes::is_sign))]
pub fn is_sign(c: u8) -> bool
    ensures { result ≡ is_sign c }
{
    matches!(
        c,
        b'!' | b'%'
            | b'&'
            | b'$'
            | b'#'
            | b'+'
            | b'-'
            | b'/'
            | b':'
            | b'<'
            | b'='
            | b'>'
            | b'?'
            | b'@'
            | b'\\'
            | b'~'
            | b'`'
            | b'^'
            | b'|'
            | b'*'
    )
}

#[tactic(auto, unfolding(crate::specs::Bytes::is_space))]
pub fn is_space(c: u8) -> bool
    ensures { result ≡ is_space c }
{
    c == b' ' || c == b'\t' || c == b'\n' || c == 12 || c == b'\r'
}

#[tactic(auto, unfolding(crate::specs::Bytes::is_control))]
pub fn is_control(c: u8) -> bool
    ensures { result ≡ is_control c }
{
    c < 32 || c == 127
}

impl ByteClass {
    /// Whether the byte is in the class.
    pub fn contains(self, c: u8) -> bool
        ensures { result ≡ in_class self c }
    {
        match self {
            ByteClass::Digit => is_digit(c),
            ByteClass::Hexadecimal => is_hexadecimal(c),
            ByteClass::Alphanumeric => is_alphanumeric(c),
            ByteClass::Sign => is_sign(c),
            ByteClass::Space => is_space(c),
        }
    }
}

/// How many bytes at the front are in the class.
pub fn run(class: ByteClass, bytes: &[u8]) -> usize
    ensures value { result ≡ prefix_len (in_class class) bytes.now }
    ensures bound { result ≤ length bytes.now }
{
    for (i, c) in bytes.iter().enumerate() {
        if !class.contains(*c) {
            return i;
        }
    }
    bytes.len()
}

/// The byte at a place, 0 past the end.
pub fn byte_at(bytes: &[u8], at: usize) -> u8
    ensures { result ≡ slice_index bytes.now at }
{
    if at < bytes.len() { bytes[at] } else { 0 }
}

/// The bytes from a place on.
pub fn rest(bytes: &[u8], at: usize) -> &[u8]
    requires { at ≤ length bytes.now }
    ensures { result.now ≡ drop at bytes.now }
{
    &bytes[at..]
}

/// So many bytes at the front.
pub fn front(bytes: &[u8], len: usize) -> &[u8]
    requires { len ≤ length bytes.now }
    ensures { result.now ≡ take len bytes.now }
{
    &bytes[..len]
}
