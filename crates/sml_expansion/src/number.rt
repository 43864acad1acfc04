//! Numbers of nodes and of what is made.

ghost use Rattle.std.specs.Prelude.{◌≡◌, IfOk, get_or, suc};

use smlc_base::NoMemory;

/// The number of a node. There is no memory for more nodes than numbers.
pub(crate) fn number(nodes: usize) -> Result<u32, NoMemory>
    ensures { IfOk result (λ number. number ≡ nodes) }
{
    match u32::try_from(nodes) {
        Ok(number) => Ok(number),
        Err(_) => Err(NoMemory),
    }
}

/// The number behind one. There is no memory for more things than numbers.
pub fn next(number: u32) -> Result<u32, NoMemory>
    ensures { IfOk result (λ behind. behind ≡ suc number) }
{
    match number.checked_add(1) {
        Some(behind) => Ok(behind),
        None => Err(NoMemory),
    }
}

/// The number at a place, 0 past the end.
pub fn number_at(numbers: &[u32], at: usize) -> u32
    ensures { result ≡ get_or numbers.now at 0 }
{
    match numbers.get(at) {
        Some(number) => *number,
        None => 0,
    }
}
