//! Checks, of which the first that fails is the answer.

ghost use Rattle.std.specs.Prelude.{◌≡◌, ◌+◌, nat_lt};
ghost use Rattle.elf_static.specs.Checks.{Passes};

use crate::error::{ElfError, ElfKind};

/// A check: whether it fails, and what is answered then.
#[derive(Clone, Copy, PartialEq, Eq, Debug)]
pub struct Check {
    pub fails: bool,
    pub kind: ElfKind,
    pub at: u64,
}

/// Answers the first check that fails.
pub fn pass(checks: &[Check]) -> Result<(), ElfError>
    ensures { Passes result checks.now }
{
    for check in checks {
        if check.fails {
            return Err(ElfError::NotElf(check.kind, check.at));
        }
    }
    Ok(())
}

/// Whether a sum is above a limit.
pub fn exceeds(a: u64, b: u64, limit: u64) -> bool
    ensures { result ≡ nat_lt limit (a + b) }
{
    match a.checked_add(b) {
        Some(sum) => limit < sum,
        None => true,
    }
}
