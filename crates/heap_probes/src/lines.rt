//! Words and numbers behind a text.

ghost use Rattle.std.specs.Prelude.{◌≡◌};
ghost use Rattle.heap_probes.specs.Lines.{Puts};
ghost use Rattle.heap_probes.specs.Rules.{numbered};

use itoa::Buffer;
use smlc_base::NoMemory;

/// A text behind a text, which stays as it was where memory is wanting.
pub(crate) fn put(text: &mut Vec<u8>, word: &[u8]) -> Result<(), NoMemory>
    ensures { Puts word.now text.old.items text.new.items result }
{
    text.extend_from_slice(word)?;
    Ok(())
}

/// A word, and a number behind it.
pub(crate) fn put_number(text: &mut Vec<u8>, word: &[u8], number: u64) -> Result<(), NoMemory>
    ensures { Puts (numbered word.now number) text.old.items text.new.items result }
{
    let mut buffer = Buffer::new();
    match put(text, word) {
        Ok(()) => put(text, buffer.format(number).as_bytes()),
        Err(failed) => Err(failed),
    }
}
