//! The numbers of labels.

ghost use Rattle.std.specs.Prelude.{◌≡◌, length, IfOk};
ghost use Rattle.emit_text.specs.Labels.{labels_of};

use emit_code::numbers::sum;
use emit_items::Labels;
use placed_ir::Placed;
use smlc_base::NoMemory;

/// How many exceptions the library has.
const LIBRARY: u32 = 11;

fn count<T>(items: &[T]) -> Result<u32, NoMemory>
    ensures { IfOk result (λ n. n ≡ length items.now) }
{
    match u32::try_from(items.len()) {
        Ok(n) => Ok(n),
        Err(_) => Err(NoMemory),
    }
}

/// The numbers at which labels of each kind begin.
///
/// # Errors
///
/// Want of memory, as where there are 2^32 labels or more.
pub fn labels_of(placed: &Placed) -> Result<Labels, NoMemory>
    ensures { IfOk result (λ labels. labels ≡ labels_of placed.now) }
{
    let functions = count(placed.functions())?;
    let texts = sum(functions, 1)?;
    let spellings = sum(texts, count(placed.texts())?)?;
    let names = sum(spellings, count(placed.exns())?)?;
    let closures = sum(names, LIBRARY)?;
    Ok(Labels {
        texts,
        spellings,
        names,
        closures,
        routines: sum(sum(closures, functions)?, 1)?,
        points: count(placed.points())?,
    })
}
