//! Functions with their spill records.

ghost use Rattle.std.specs.Prelude.{◌≡◌, map, IfOk};
ghost use Rattle.place_laws.specs.Place.{greater, frame_size};
ghost use Rattle.place_bodies.specs.Steps.{at_of};
ghost use Rattle.reg_spill.specs.Frames.{with_frame, most_words};

use crate::homes::at;
use crate::spills::greater_of;
use crate::words::sum;
use placed_ir::Function;
use smlc_base::{NoMemory, Row};
use std::alloc::Global;

/// The functions, by label, where the body of each number has so many words in its spill record.
pub(crate) fn with_frames(
    alloc: Global,
    functions: &[closure_ir::Function],
    words: &[u32],
) -> Result<Row<Function>, NoMemory>
    ensures { IfOk result (λ all. all ≡ map (with_frame (at_of words.now)) functions.now) }
{
    let mut all = Row::new(alloc);
    for function in functions {
        all.push(Function {
            body: function.body,
            frame: at(words, function.body),
        })?;
    }
    Ok(all)
}

// What a record takes with its header. Where it has no words there is none.
fn record_words(frame: u32) -> Result<u32, NoMemory>
    ensures { IfOk result (λ n. n ≡ frame_size frame) }
{
    if frame == 0 { Ok(0) } else { sum(frame, 1) }
}

fn greatest(functions: &[Function]) -> Result<u32, NoMemory>
    ensures { IfOk result (λ n. n ≡ most_words functions.now) }
{
    let mut most = 0;
    let mut i = functions.len();
    while i > 0 {
        i -= 1;
        most = greater_of(record_words(functions[i].frame)?, most);
    }
    Ok(most)
}

/// What the greatest record takes with its header, where what is run first has so many words in its own.
pub(crate) fn spill(frame: u32, functions: &[Function]) -> Result<u32, NoMemory>
    ensures { IfOk result (λ n. n ≡ greater (frame_size frame) (most_words functions.now)) }
{
    let first = record_words(frame)?;
    let others = greatest(functions)?;
    Ok(greater_of(first, others))
}
