//! Words of closures and of class records.

ghost use Rattle.std.specs.Prelude.{◌≡◌, cond, suc, length, slice_get, IfOk};
ghost use Rattle.close_laws.specs.Layouts.{vars_in};
ghost use Rattle.label_plans.specs.Rows.{words_of, records_of};

use closure_layouts::ClosureLayout;
use left_words::tables::number;
use left_words::walking::sum;
use lifetime_users::Class;
use smlc_base::NoMemory;

fn code_words(has_code: bool) -> u32
    ensures { result ≡ cond has_code 1 0 }
{
    if has_code { 1 } else { 0 }
}

/// The words of a closure with its header, 0 for a closed function.
pub fn closure_words(layout: &ClosureLayout) -> Result<u32, NoMemory>
    ensures { IfOk result (λ n. n ≡ words_of layout.now) }
{
    if layout.is_static {
        return Ok(0);
    }
    let classes = number(layout.classes.len())?;
    let own = number(layout.own.len())?;
    let fields = sum(classes, own)?;
    let behind = sum(code_words(layout.has_code), fields)?;
    sum(1, behind)
}

fn class_size(classes: &[Class], k: u32) -> Result<u32, NoMemory>
    ensures { IfOk result (λ n. n ≡ length (vars_in (slice_get classes.now k))) }
{
    match classes.get(k as usize) {
        Some(class) => number(class.vars.len()),
        None => Ok(0),
    }
}

/// The words of the records of some classes.
pub fn record_words(classes: &[Class], numbers: &[u32]) -> Result<u32, NoMemory>
    ensures { IfOk result (λ n. n ≡ records_of classes.now numbers.now) }
{
    let mut total = 0;
    let mut i = numbers.len();
    while i > 0 {
        i -= 1;
        let size = class_size(classes, numbers[i])?;
        let words = sum(1, size)?;
        total = sum(words, total)?;
    }
    Ok(total)
}
