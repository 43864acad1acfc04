//! Fields of headers and tables that are written.

ghost use Rattle.std.specs.Prelude.{◌≡◌, ◌<◌, ◌≤◌, ◌+◌, ◌++◌, length, OnOk};
ghost use Rattle.elf_static.specs.Writing.{field_bytes, FieldFits, FieldsFit, fields, padded};

use byteorder::{ByteOrder, LittleEndian};
use smlc_base::NoMemory;

/// A little-endian number of two, four or eight bytes.
#[derive(Clone, Copy, PartialEq, Eq, Debug)]
pub enum Field {
    Half(u16),
    Word(u32),
    Double(u64),
}

/// Puts the field last.
fn put_field(out: &mut Vec<u8>, field: Field) -> Result<(), NoMemory>
    ensures bytes { OnOk result (out.new.items ≡ out.old.items ++ field_bytes field) }
    ensures fits { FieldFits field }
{
    match field {
        Field::Half(number) => {
            let mut bytes = [0; 2];
            LittleEndian::write_u16(&mut bytes, number);
            out.extend_from_slice(&bytes)?;
        }
        Field::Word(number) => {
            let mut bytes = [0; 4];
            LittleEndian::write_u32(&mut bytes, number);
            out.extend_from_slice(&bytes)?;
        }
        Field::Double(number) => {
            let mut bytes = [0; 8];
            LittleEndian::write_u64(&mut bytes, number);
            out.extend_from_slice(&bytes)?;
        }
    }
    Ok(())
}

/// Puts the fields last.
pub fn put_fields(out: &mut Vec<u8>, all: &[Field]) -> Result<(), NoMemory>
    ensures bytes { OnOk result (out.new.items ≡ out.old.items ++ fields all.now) }
    ensures fit { OnOk result (FieldsFit all.now) }
{
    for field in all {
        put_field(out, *field)?;
    }
    Ok(())
}

/// How many bytes so many take up to the next multiple of `to`.
pub fn padded_len(bytes: &[u8], to: usize) -> usize
    requires above { 0 < to }
    requires limit { to ≤ 4096 }
    ensures { result ≡ length (padded to bytes.now) }
{
    (bytes.len() + (to - 1)) / to * to
}

/// Puts the bytes last, and 0 up to the next multiple of `to`.
pub fn put_padded(out: &mut Vec<u8>, bytes: &[u8], to: usize) -> Result<(), NoMemory>
    requires above { 0 < to }
    requires limit { to ≤ 4096 }
    ensures { OnOk result (out.new.items ≡ out.old.items ++ padded to bytes.now) }
{
    let zeros = padded_len(bytes, to) - bytes.len();
    out.extend_from_slice(bytes)?;
    for _ in 0..zeros {
        out.push(0)?;
    }
    Ok(())
}
