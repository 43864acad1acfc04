//! The routines, put into a program.

ghost use Rattle.std.specs.Prelude.{◌≡◌, ◌≤◌, ◌+◌, ℕ, length, take, IfOk, OnOk, OnErr};
ghost use Rattle.std.specs.List.{All};
ghost use Rattle.rv_asm.specs.Program.{with_place, IsFree};
ghost use Rattle.rt_prims.specs.Lines.{FitsLine, number, labels, with_lines};
ghost use Rattle.rt_prims.specs.Text.{lines_of, with_routine, with_routines, order, with_labels, AreFree, HasBegun, labels_from};

use crate::ends::{CHR, DIV, FULL, HALT, OVERFLOW, SUBSCRIPT, UNCAUGHT};
use crate::equality::{EQUAL, TURN};
use crate::labels::RoutineLabels;
use crate::line::{Line, Routine};
use crate::outside::{INPUT_LINE, PRINT};
use crate::strings::{COMPARE, CONCAT, IMPLODE, SIZE, STR_OF, SUB, SUBSTRING};
use crate::writing::put_lines;
use rv_asm::Asm;
use smlc_base::NoMemory;

/// The lines of a routine.
#[tactic(auto, unfolding(crate::specs::Text::lines_of))]
fn lines_of(routine: Routine) -> &'static [Line]
    ensures { result.now ≡ lines_of routine }
{
    match routine {
        Routine::Full => &FULL,
        Routine::Halt => &HALT,
        Routine::Uncaught => &UNCAUGHT,
        Routine::Overflow => &OVERFLOW,
        Routine::Div => &DIV,
        Routine::Chr => &CHR,
        Routine::Subscript => &SUBSCRIPT,
        Routine::Concat => &CONCAT,
        Routine::Size => &SIZE,
        Routine::Sub => &SUB,
        Routine::Substring => &SUBSTRING,
        Routine::StrOf => &STR_OF,
        Routine::Implode => &IMPLODE,
        Routine::Compare => &COMPARE,
        Routine::Print => &PRINT,
        Routine::InputLine => &INPUT_LINE,
        Routine::Equal => &EQUAL,
        Routine::Turn => &TURN,
    }
}

/// The routines in the order of the text.
const ORDER: [Routine; 18] = [
    Routine::Full,
    Routine::Halt,
    Routine::Uncaught,
    Routine::Overflow,
    Routine::Div,
    Routine::Chr,
    Routine::Subscript,
    Routine::Concat,
    Routine::Size,
    Routine::Sub,
    Routine::Substring,
    Routine::StrOf,
    Routine::Implode,
    Routine::Compare,
    Routine::Print,
    Routine::InputLine,
    Routine::Equal,
    Routine::Turn,
];

/// Makes the labels of routines and data, and answers the first.
fn make_labels(asm: &mut Asm) -> Result<u32, NoMemory>
    ensures first { IfOk result (λ first. first ≡ length asm.old.places) }
    ensures few { IfOk result (λ first. first + labels ≤ 4294967296) }
    ensures ok { OnOk result (asm.new ≡ with_labels labels asm.old) }
    ensures err { OnErr result (asm.new.items ≡ asm.old.items) }
{
    let first = asm.label()?;
    for _ in 1..28_u32 {
        asm.label()?;
    }
    Ok(first)
}

/// Puts the routine last, under its label.
fn put_routine(asm: &mut Asm, first: u32, routine: Routine) -> Result<(), NoMemory>
    requires made { first + labels ≤ length asm.old.places }
    requires few { first + labels ≤ 4294967296 }
    requires free { IsFree asm.old (first + number routine) }
    ensures ok { OnOk result (asm.new ≡ with_routine first asm.old routine) }
    ensures err { OnErr result ((k : ℕ) × (k ≤ length (lines_of routine)) × (asm.new ≡ with_lines first (with_place asm.old (first + number routine)) (take k (lines_of routine)))) }
{
    asm.bind(first + routine.number());
    put_lines(asm, first, lines_of(routine))
}

/// Puts the routines last, whose labels are made.
fn put_routines(asm: &mut Asm, first: u32, routines: &[Routine]) -> Result<(), NoMemory>
    requires all { routines.now ≡ order }
    requires made { first + labels ≤ length asm.old.places }
    requires few { first + labels ≤ 4294967296 }
    requires free { AreFree first 0 asm.old }
    ensures ok { OnOk result (asm.new ≡ with_routines first asm.old order) }
    ensures err { OnErr result (HasBegun first asm.old asm.new) }
{
    for routine in routines {
        put_routine(asm, first, *routine)?;
    }
    Ok(())
}

/// Puts the routines last, each under its label, and answers the labels of those that are called. The labels of the data that they
/// use aren't bound. For want of memory some of the instructions have been put.
pub fn routines(asm: &mut Asm) -> Result<RoutineLabels, NoMemory>
    ensures labels { IfOk result (λ l. l ≡ labels_from (length asm.old.places)) }
    ensures ok { OnOk result (asm.new ≡ with_routines (length asm.old.places) (with_labels labels asm.old) order) }
    ensures err { OnErr result (HasBegun (length asm.old.places) asm.old asm.new) }
{
    let first = make_labels(asm)?;
    put_routines(asm, first, &ORDER)?;
    Ok(RoutineLabels::from_first(first))
}
