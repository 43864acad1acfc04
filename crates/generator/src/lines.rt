//! The lines.

ghost use Rattle.std.specs.Prelude.{◌≡◌, ◌++◌, ◌-◌, OnOk};
ghost use Rattle.std.specs.Fmt.{decimal};
ghost use Rattle.generator.specs.Text.{form_text, line, last_line, fold_head, print_head};

use crate::form::{Form, form_of};
use itoa::Buffer;
use smlc_base::NoMemory;

#[tactic(auto, unfolding(crate::specs::Text::fold_head))]
fn fold_head() -> &'static [u8]
    ensures { result.now ≡ fold_head }
{
    b"foldl (fn (a, b) => (a + b) mod 1000000) (f"
}

#[tactic(auto, unfolding(crate::specs::Text::print_head))]
fn print_head() -> &'static [u8]
    ensures { result.now ≡ print_head }
{
    b"val _ = print (Int.toString (f"
}

fn put(text: &mut Vec<u8>, word: &[u8]) -> Result<(), NoMemory>
    ensures { OnOk result (text.new.items ≡ text.old.items ++ word.now) }
{
    text.extend_from_slice(word)?;
    Ok(())
}

// A number behind a word.
fn put_number(text: &mut Vec<u8>, word: &[u8], number: u64) -> Result<(), NoMemory>
    ensures { OnOk result (text.new.items ≡ text.old.items ++ word.now ++ decimal number) }
{
    let mut buffer = Buffer::new();
    put(text, word)?;
    put(text, buffer.format(number).as_bytes())
}

// What a function does: it adds, calls the one before, folds a list over it, or handles an exception.
fn put_form(text: &mut Vec<u8>, form: Form, before: u64, addend: u64) -> Result<(), NoMemory>
    ensures { OnOk result (text.new.items ≡ text.old.items ++ form_text form before addend) }
{
    match form {
        Form::Adds => {
            put_number(text, b"(x + ", addend)?;
            put(text, b") mod 1000000")
        }
        Form::Calls => {
            put_number(text, b"f", before)?;
            put_number(text, b" (x + ", addend)?;
            put(text, b") mod 1000000")
        }
        Form::Folds => {
            put_number(text, fold_head(), before)?;
            put_number(text, b" x) [x, ", addend)?;
            put_number(text, b", x + ", addend)?;
            put(text, b"]")
        }
        Form::Handles => {
            put_number(text, b"(case f", before)?;
            put_number(text, b" x of 0 => raise Fail \"0\" | y => y + ", addend)?;
            put_number(text, b") handle Fail _ => ", addend)
        }
    }
}

/// The line of a function.
pub(crate) fn put_line(text: &mut Vec<u8>, number: u64, drawn: u64) -> Result<(), NoMemory>
    ensures { OnOk result (text.new.items ≡ text.old.items ++ line number drawn) }
{
    put_number(text, b"fun f", number)?;
    put(text, b" x = ")?;
    put_form(
        text,
        form_of(number, drawn),
        number.saturating_sub(1),
        drawn / 4 % 1000,
    )?;
    put(text, b"\n")
}

/// The line that applies the last function, of this number.
pub(crate) fn put_last(text: &mut Vec<u8>, number: u64) -> Result<(), NoMemory>
    ensures { OnOk result (text.new.items ≡ text.old.items ++ last_line number) }
{
    put_number(text, print_head(), number)?;
    put(text, b" 7) ^ \"\\n\")")?;
    put(text, b"\n")
}
