//! Numbers of trees.

ghost use Rattle.std.specs.Prelude.{◌≡◌, ◌+◌, IfOk, OnOk};

use smlc_base::NoMemory;

/// Two numbers of trees together. There is no memory for more trees than numbers.
pub(crate) fn add(trees: u32, more: u32) -> Result<u32, NoMemory>
    ensures { IfOk result (λ sum. sum ≡ trees + more) }
{
    match trees.checked_add(more) {
        Some(sum) => Ok(sum),
        None => Err(NoMemory),
    }
}

/// An expression of the grammar is one tree: a check that only a tree outside the grammar fails.
pub(crate) fn one_tree(trees: u32) -> Result<(), NoMemory>
    ensures { OnOk result (trees ≡ 1) }
{
    if trees == 1 { Ok(()) } else { Err(NoMemory) }
}

/// How many there are. There is no memory for more trees than numbers.
pub(crate) fn number(trees: usize) -> Result<u32, NoMemory>
    ensures { IfOk result (λ number. number ≡ trees) }
{
    match u32::try_from(trees) {
        Ok(number) => Ok(number),
        Err(_) => Err(NoMemory),
    }
}
