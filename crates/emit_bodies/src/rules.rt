//! The tests of a rule in front of its code.

ghost use Rattle.std.specs.Prelude.{◌≡◌, ◌++◌, OnOk};
ghost use Rattle.emit_items.specs.Tests.{all_tested};

use emit_code::Text;
use emit_code::numbers::sum;
use emit_code::tests::test_one;
use emit_items::Labels;
use placed_ir::{Source, Test};
use smlc_base::NoMemory;
use std::alloc::Global;

/// The tests of a rule in front of what stands there. Where one fails all goes on behind so many instructions more.
pub fn put_tests(
    text: &mut Text,
    alloc: Global,
    labels: &Labels,
    subject: &Source,
    tests: &[Test],
    after: u32,
) -> Result<(), NoMemory>
    ensures { OnOk result (text.new ≡ all_tested labels.now subject.now tests.now after ++ text.old) }
{
    let start = text.words();
    let mut left = tests.len();
    while left > 0 {
        left -= 1;
        let behind = sum(after, text.words() - start)?;
        let mut piece = Vec::new(alloc);
        test_one(&mut piece, labels, subject, &tests[left], behind)?;
        text.put_in_front(piece.as_slice())?;
    }
    Ok(())
}
