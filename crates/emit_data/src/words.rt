//! Words and strings put into bytes.

ghost use Rattle.std.specs.Prelude.{◌≡◌, ◌<◌, ◌++◌, ◌^◌, replicate, OnOk};
ghost use Rattle.emit_items.specs.Making.{header};
ghost use Rattle.emit_data.specs.Blocks.{word as word_bytes, string_block};

use smlc_base::NoMemory;

/// Puts a word last, its lowest byte first.
#[tactic(auto, unfolding(crate::specs::Blocks::word))]
pub(crate) fn put_word(bytes: &mut Vec<u8>, word: u64) -> Result<(), NoMemory>
    ensures { OnOk result (bytes.new.items ≡ bytes.old.items ++ word_bytes word) }
{
    bytes.extend_from_slice(&word.to_le_bytes())?;
    Ok(())
}

/// The header of a block.
pub(crate) fn header(kind: u64, tag: u64, size: u64) -> u64
    requires kind { kind < 8 }
    requires tag { tag < 2 ^ 40 }
    ensures { result ≡ header kind tag size }
{
    size.wrapping_mul(0x1_0000_0000)
        .wrapping_add(kind + 8 * tag)
}

/// Puts so many bytes of 0 last.
fn put_zeros(bytes: &mut Vec<u8>, count: usize) -> Result<(), NoMemory>
    ensures { OnOk result (bytes.new.items ≡ bytes.old.items ++ replicate count 0) }
{
    let mut left = count;
    while left > 0 {
        bytes.push(0)?;
        left -= 1;
    }
    Ok(())
}

/// Puts a string last, as a block.
#[tactic(auto, unfolding(crate::specs::Blocks::string_block))]
pub(crate) fn put_string(bytes: &mut Vec<u8>, text: &[u8]) -> Result<(), NoMemory>
    ensures { OnOk result (bytes.new.items ≡ bytes.old.items ++ string_block text.now) }
{
    let padding = (8 - text.len() % 8) % 8;
    put_word(bytes, header(2, 0, text.len() as u64))?;
    bytes.extend_from_slice(text)?;
    put_zeros(bytes, padding)
}
