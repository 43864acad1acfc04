//! Little-endian numbers in a file.

ghost use Rattle.std.specs.Prelude.{◌≡◌, ◌+◌, ◌≤◌, length};
ghost use Rattle.elf_static.specs.Numbers.{number};

use byteorder::{ByteOrder, LittleEndian};

/// The two bytes at a place.
#[tactic(auto, unfolding(crate::specs::Numbers::number))]
pub fn half_at(bytes: &[u8], at: usize) -> u16
    requires { at + 2 ≤ length bytes.now }
    ensures { result ≡ number 2 at bytes.now }
{
    LittleEndian::read_u16(&bytes[at..])
}

/// The four bytes at a place.
#[tactic(auto, unfolding(crate::specs::Numbers::number))]
pub fn word_at(bytes: &[u8], at: usize) -> u32
    requires { at + 4 ≤ length bytes.now }
    ensures { result ≡ number 4 at bytes.now }
{
    LittleEndian::read_u32(&bytes[at..])
}

/// The eight bytes at a place.
#[tactic(auto, unfolding(crate::specs::Numbers::number))]
pub fn double_at(bytes: &[u8], at: usize) -> u64
    requires { at + 8 ≤ length bytes.now }
    ensures { result ≡ number 8 at bytes.now }
{
    LittleEndian::read_u64(&bytes[at..])
}
