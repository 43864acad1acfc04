//! The table of entries.

ghost use Rattle.std.specs.Prelude.{◌≡◌, ◌≤◌, ◌<◌, ◌+◌, ◌^◌, length, get_or, IfOk};
ghost use Rattle.emit_text.specs.Labels.{routines_label, labels_of};
ghost use Rattle.rv_codegen.specs.Image.{roots_of, entry_label, rows_from};

use elf_static::EntryRow;
use emit_code::numbers::sum;
use emit_items::Labels;
use placed_ir::Placed;
use rt_prims::Routine;
use smlc_base::{Label, NoMemory, PointKind, Row};
use std::alloc::Global;

/// The registers that hold values at an entry: bit i stands for register xi.
fn roots_of(kind: PointKind) -> u32
    ensures { result ≡ roots_of kind }
{
    match kind {
        PointKind::Fn | PointKind::Eq => 0x4_1c00,
        PointKind::Ret | PointKind::Caught | PointKind::Popped => 0x4_0c00,
    }
}

// The label at which a point is entered.
fn entry_label(labels: &Labels, placed: &Placed, label: u32) -> Result<u32, NoMemory>
    requires { labels.now ≡ labels_of placed.now }
    ensures { IfOk result (λ n. n ≡ entry_label placed.now label) }
{
    if label < labels.texts - 1 {
        Ok(label)
    } else {
        sum(labels.routines, Routine::Turn.number())
    }
}

/// The rows of so many points, where labels have these addresses.
///
/// # Errors
///
/// Want of memory.
pub fn rows_of(
    alloc: Global,
    labels: &Labels,
    placed: &Placed,
    count: u32,
    at: &[u64],
) -> Result<Row<EntryRow>, NoMemory>
    requires labels { labels.now ≡ labels_of placed.now }
    requires count { count ≡ length placed.now.points }
    requires all { routines_label placed.now + 28 ≤ length at.now }
    ensures rows { IfOk result (λ rows. rows ≡ rows_from placed.now (λ l. get_or at.now l 0) 0 placed.now.points) }
    ensures few { IfOk result (λ rows. length placed.now.points < 2 ^ 32) }
{
    let points = placed.points();
    let mut rows = Row::new(alloc);
    let mut label = 0;
    while label < count {
        let point = points[label as usize];
        let entry = entry_label(labels, placed, label)?;
        rows.push(EntryRow {
            address: at[entry as usize],
            label: Label(label),
            point,
            roots: roots_of(point.kind),
        })?;
        label += 1;
    }
    Ok(rows)
}
