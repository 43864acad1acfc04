//! From the words of a command line to what they ask.

ghost use Rattle.std.specs.Prelude.{◌≡◌, List, ℕ, length, map, codes, string_bytes, IfOk, IfSome, IfNone};
ghost use Rattle.smlc_words.specs.Given.{Given, nothing, IsGiven};
ghost use Rattle.smlc_words.specs.Arguments.{given};
ghost use Rattle.smlc_words.specs.Asks.{Asked, Asks, AreFiles, AreNumbers, IsAnswer, asked};
ghost use Rattle.smlc_words.specs.Laws.{IsInRange};

use crate::arguments::Arguments;
use crate::asked::Command;
use crate::value::number;
use smlc_base::NoMemory;
use std::alloc::Global;

/// What the words ask: `words[0]` is the program's name and `words[1]` the command's, and the words behind them are operands and
/// options in any order. It is None exactly where they are no command.
pub fn command<'a>(alloc: Global, words: &'a [String]) -> Result<Option<Command<'a>>, NoMemory>
    ensures some { IfOk result (λ o. IfSome o (λ c. Asks (map string_bytes words.now) (asked c))) }
    ensures none { IfOk result (λ o. IfNone o ((a : Asked) → Asks (map string_bytes words.now) a → ⊥)) }
    ensures range { IfOk result (λ o. IfSome o (λ c. IsInRange (asked c))) }
{
    let [_, name, rest @ ..] = words else {
        return Ok(None);
    };
    match Arguments::read(alloc, rest) {
        Ok(Some(arguments)) => Ok(command_of(name, arguments)),
        Ok(None) => Ok(None),
        Err(failed) => Err(failed),
    }
}

/// The command of this name.
fn command_of<'a>(name: &str, arguments: Arguments<'a>) -> Option<Command<'a>>
    ensures { IsAnswer name.now (given arguments.entry) result }
{
    match name {
        "compile" => compile(arguments),
        "run" => run(arguments),
        "meter" => meter(arguments),
        "exec" => exec(arguments),
        "types" => types(arguments),
        "plan" => plan(arguments),
        "gen" => generate(arguments),
        "bench" => bench(arguments),
        _ => None,
    }
}

fn compile<'a>(arguments: Arguments<'a>) -> Option<Command<'a>>
    ensures { IsAnswer (codes "compile") (given arguments.entry) result }
{
    let Arguments {
        operands,
        out: Some(out),
        arena,
        steps: None,
        stride: None,
    } = arguments
    else {
        return None;
    };
    let files = files(operands)?;
    Some(Command::Compile { files, out, arena })
}

fn run<'a>(arguments: Arguments<'a>) -> Option<Command<'a>>
    ensures { IsAnswer (codes "run") (given arguments.entry) result }
{
    let Arguments {
        operands,
        out: None,
        arena,
        steps,
        stride: None,
    } = arguments
    else {
        return None;
    };
    let files = files(operands)?;
    Some(Command::Run {
        files,
        arena,
        steps,
    })
}

fn meter<'a>(arguments: Arguments<'a>) -> Option<Command<'a>>
    ensures { IsAnswer (codes "meter") (given arguments.entry) result }
{
    let Arguments {
        operands,
        out: None,
        arena,
        steps,
        stride,
    } = arguments
    else {
        return None;
    };
    let files = files(operands)?;
    Some(Command::Meter {
        files,
        arena,
        steps,
        stride,
    })
}

fn exec<'a>(arguments: Arguments<'a>) -> Option<Command<'a>>
    ensures { IsAnswer (codes "exec") (given arguments.entry) result }
{
    let Arguments {
        operands,
        out: None,
        arena: None,
        steps,
        stride: None,
    } = arguments
    else {
        return None;
    };
    match operands.as_slice() {
        [elf] => Some(Command::Exec { elf, steps }),
        _ => None,
    }
}

fn types<'a>(arguments: Arguments<'a>) -> Option<Command<'a>>
    ensures { IsAnswer (codes "types") (given arguments.entry) result }
{
    let Arguments {
        operands,
        out: None,
        arena: None,
        steps: None,
        stride: None,
    } = arguments
    else {
        return None;
    };
    let files = files(operands)?;
    Some(Command::Types { files })
}

fn plan<'a>(arguments: Arguments<'a>) -> Option<Command<'a>>
    ensures { IsAnswer (codes "plan") (given arguments.entry) result }
{
    let Arguments {
        operands,
        out: None,
        arena: None,
        steps: None,
        stride: None,
    } = arguments
    else {
        return None;
    };
    let files = files(operands)?;
    Some(Command::Plan { files })
}

fn generate<'a>(arguments: Arguments<'a>) -> Option<Command<'a>>
    ensures { IsAnswer (codes "gen") (given arguments.entry) result }
{
    let Arguments {
        operands,
        out: None,
        arena: None,
        steps: None,
        stride: None,
    } = arguments
    else {
        return None;
    };
    let (number, size) = numbers(&operands)?;
    Some(Command::Gen { number, size })
}

fn bench<'a>(arguments: Arguments<'a>) -> Option<Command<'a>>
    ensures { IsAnswer (codes "bench") (given arguments.entry) result }
{
    let Arguments {
        operands,
        out: None,
        arena: None,
        steps: None,
        stride: None,
    } = arguments
    else {
        return None;
    };
    let (number, size) = numbers(&operands)?;
    Some(Command::Bench { number, size })
}

/// The operands, where they are as many as there may be files.
fn files<'a>(operands: Vec<&'a str>) -> Option<Vec<&'a str>>
    ensures some { IfSome result (λ files. AreFiles (map (λ file. file.now) files.items) × (files ≡ operands.entry)) }
    ensures none { IfNone result (AreFiles (map (λ file. file.now) operands.entry.items) → ⊥) }
{
    if 1 <= operands.len() && operands.len() <= 256 {
        Some(operands)
    } else {
        None
    }
}

/// The two operands as a program's number and its size.
fn numbers(operands: &[&str]) -> Option<(u64, u64)>
    ensures some { IfSome result (λ both. AreNumbers (map (λ word. word.now) operands.now) both.0 both.1) }
    ensures none { IfNone result ((n size : ℕ) → AreNumbers (map (λ word. word.now) operands.now) n size → ⊥) }
{
    match operands {
        [first, second] => Some((number(first, 0, u64::MAX)?, number(second, 1, 10_000)?)),
        _ => None,
    }
}
