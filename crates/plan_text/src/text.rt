//! The text of a plan.

ghost use Rattle.std.specs.Prelude.{◌≡◌, IfOk};
ghost use Rattle.close_laws.specs.Text.{plan_text};

use crate::lines::{class_lines, label_lines};
use crate::put::{put, put_number};
use close_laws::Plan;
use smlc_base::NoMemory;
use std::alloc::Global;

/// The text of the plan.
pub fn text_of(alloc: Global, plan: &Plan) -> Result<Vec<u8>, NoMemory>
    ensures { IfOk result (λ v. v.items ≡ plan_text plan.now) }
{
    let mut text = label_lines(alloc, plan.labels.items())?;
    let classes = class_lines(alloc, plan.classes.of.items())?;
    put(&mut text, &classes)?;
    put_number(&mut text, b"factor ", plan.factor as u64)?;
    put(&mut text, b"\n")?;
    put_number(&mut text, b"spill ", plan.spill as u64)?;
    put(&mut text, b"\n")?;
    Ok(text)
}
