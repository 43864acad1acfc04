//! The keys of variables.

ghost use Rattle.std.specs.Prelude.{◌≡◌, ◌++◌, IfOk, OnOk};
ghost use Rattle.live_classes.specs.Keys.{key_of, key_at};

use crate::homes::home;
use cps_free::row;
use smlc_base::{NoMemory, Row};
use std::alloc::Global;

// What variables that live together have in common.
fn joined(alloc: Global, home: Option<u32>, users: &[u32]) -> Result<Vec<u32>, NoMemory>
    ensures { IfOk result (λ v. v.items ≡ key_of home users.now) }
{
    let mut key = Vec::new(alloc);
    match home {
        Some(function) => {
            key.push(1)?;
            key.push(function)?;
        }
        None => key.push(0)?,
    }
    key.extend_from_slice(users)?;
    Ok(key)
}

/// The key of a variable, by the tables.
pub(crate) fn key(
    alloc: Global,
    homes: &[Option<u32>],
    users: &[Row<u32>],
    x: u32,
) -> Result<Vec<u32>, NoMemory>
    ensures { IfOk result (λ v. v.items ≡ key_at homes.now users.now x) }
{
    joined(alloc, home(homes, x), row(users, x))
}
