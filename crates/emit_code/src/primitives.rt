//! What primitives do to words in registers, and what goes to a routine. The result is left in x5.

ghost use Rattle.std.specs.Prelude.{◌≡◌, ◌++◌, true, neg_ℤ, OnOk};
ghost use Rattle.emit_items.specs.Primitives.{empty_record, is_small, unless, plus, minus, times, divisor, divided, rounded, quotient_word, quotient, left, left_rounded, left_word, modulo, negate, absolute, less, not_less, deref, assign, chr, of_one, of_two, grown_by, more, source_more, link, routine_of, arguments, routine_result, called, two_got, summed, differed, on_two, inline, primitive_done};

use crate::items::{i, r, s};
use crate::reading::{fetch, get, routine_label};
use emit_items::Labels;
use placed_ir::Source;
use rt_prims::Routine;
use rv_asm::Item;
use rv_isa::Op;
use rv_isa::Op::{
    Add, Addi, And, Beq, Bge, Blt, Bne, Div, Jalr, Ld, Mul, Mulh, Rem, Sd, Slli, Slt, Slti, Sltiu,
    Srai, Sub, Xor, Xori,
};
use smlc_base::{NoMemory, Primitive};

fn put_empty_record(items: &mut Vec<Item>) -> Result<(), NoMemory>
    ensures { OnOk result (items.new.items ≡ items.old.items ++ empty_record) }
{
    Ok(items.push(i(Addi, 5, 0, 1))?)
}

/// The exception is raised unless the two registers stand so.
fn put_unless(
    items: &mut Vec<Item>,
    labels: &Labels,
    op: Op,
    a: u8,
    b: u8,
    routine: Routine,
) -> Result<(), NoMemory>
    ensures { OnOk result (items.new.items ≡ items.old.items ++ unless labels.now op a b routine) }
{
    items.push(s(op, a, b, 12))?;
    let label = routine_label(labels, routine)?;
    Ok(items.push(Item::Jump(label))?)
}

fn plus(items: &mut Vec<Item>, labels: &Labels, a: u8, b: u8) -> Result<(), NoMemory>
    ensures { OnOk result (items.new.items ≡ items.old.items ++ plus labels.now a b) }
{
    let sum = [
        i(Addi, 7, b, -1),
        r(Add, 5, a, 7),
        r(Slt, 31, 5, a),
        i(Slti, 7, 7, 0),
    ];
    items.extend_from_slice(&sum)?;
    put_unless(items, labels, Beq, 31, 7, Routine::Overflow)
}

fn minus(items: &mut Vec<Item>, labels: &Labels, a: u8, b: u8) -> Result<(), NoMemory>
    ensures { OnOk result (items.new.items ≡ items.old.items ++ minus labels.now a b) }
{
    let difference = [
        i(Addi, 7, b, -1),
        r(Sub, 5, a, 7),
        r(Slt, 31, a, 5),
        i(Slti, 7, 7, 0),
    ];
    items.extend_from_slice(&difference)?;
    put_unless(items, labels, Beq, 31, 7, Routine::Overflow)
}

fn times(items: &mut Vec<Item>, labels: &Labels, a: u8, b: u8) -> Result<(), NoMemory>
    ensures { OnOk result (items.new.items ≡ items.old.items ++ times labels.now a b) }
{
    let product = [
        i(Srai, 31, b, 1),
        i(Addi, 7, a, -1),
        r(Mulh, 6, 7, 31),
        r(Mul, 7, 7, 31),
        i(Srai, 31, 7, 63),
    ];
    items.extend_from_slice(&product)?;
    put_unless(items, labels, Beq, 6, 31, Routine::Overflow)?;
    Ok(items.push(i(Addi, 5, 7, 1))?)
}

// x7 gets half of the divisor, which isn't 0.
fn put_divisor(items: &mut Vec<Item>, labels: &Labels, b: u8) -> Result<(), NoMemory>
    ensures { OnOk result (items.new.items ≡ items.old.items ++ divisor labels.now b) }
{
    items.push(i(Srai, 7, b, 1))?;
    put_unless(items, labels, Bne, 7, 0, Routine::Div)
}

fn put_divided(items: &mut Vec<Item>, a: u8) -> Result<(), NoMemory>
    ensures { OnOk result (items.new.items ≡ items.old.items ++ divided a) }
{
    items.extend_from_slice(&[i(Srai, 6, a, 1), r(Rem, 31, 6, 7), r(Div, 6, 6, 7)])?;
    Ok(())
}

// Where the remainder isn't 0 and its sign isn't the divisor's, one less.
fn put_rounded(items: &mut Vec<Item>) -> Result<(), NoMemory>
    ensures { OnOk result (items.new.items ≡ items.old.items ++ rounded) }
{
    items.extend_from_slice(&[
        s(Beq, 31, 0, 16),
        r(Xor, 31, 31, 7),
        s(Bge, 31, 0, 8),
        i(Addi, 6, 6, -1),
    ])?;
    Ok(())
}

fn put_quotient_word(items: &mut Vec<Item>) -> Result<(), NoMemory>
    ensures { OnOk result (items.new.items ≡ items.old.items ++ quotient_word) }
{
    items.extend_from_slice(&[i(Slli, 7, 6, 1), i(Srai, 31, 7, 1)])?;
    Ok(())
}

fn quotient(items: &mut Vec<Item>, labels: &Labels, a: u8, b: u8) -> Result<(), NoMemory>
    ensures { OnOk result (items.new.items ≡ items.old.items ++ quotient labels.now a b) }
{
    put_divisor(items, labels, b)?;
    put_divided(items, a)?;
    put_rounded(items)?;
    put_quotient_word(items)?;
    put_unless(items, labels, Beq, 31, 6, Routine::Overflow)?;
    Ok(items.push(i(Addi, 5, 7, 1))?)
}

fn put_left(items: &mut Vec<Item>, a: u8) -> Result<(), NoMemory>
    ensures { OnOk result (items.new.items ≡ items.old.items ++ left a) }
{
    items.extend_from_slice(&[i(Srai, 6, a, 1), r(Rem, 6, 6, 7)])?;
    Ok(())
}

// Where the remainder isn't 0 and its sign isn't the divisor's, the divisor more.
fn put_left_rounded(items: &mut Vec<Item>) -> Result<(), NoMemory>
    ensures { OnOk result (items.new.items ≡ items.old.items ++ left_rounded) }
{
    items.extend_from_slice(&[
        s(Beq, 6, 0, 16),
        r(Xor, 31, 6, 7),
        s(Bge, 31, 0, 8),
        r(Add, 6, 6, 7),
    ])?;
    Ok(())
}

fn put_left_word(items: &mut Vec<Item>) -> Result<(), NoMemory>
    ensures { OnOk result (items.new.items ≡ items.old.items ++ left_word) }
{
    items.extend_from_slice(&[i(Slli, 6, 6, 1), i(Addi, 5, 6, 1)])?;
    Ok(())
}

fn modulo(items: &mut Vec<Item>, labels: &Labels, a: u8, b: u8) -> Result<(), NoMemory>
    ensures { OnOk result (items.new.items ≡ items.old.items ++ modulo labels.now a b) }
{
    put_divisor(items, labels, b)?;
    put_left(items, a)?;
    put_left_rounded(items)?;
    put_left_word(items)
}

fn negate(items: &mut Vec<Item>, labels: &Labels, a: u8) -> Result<(), NoMemory>
    ensures { OnOk result (items.new.items ≡ items.old.items ++ negate labels.now a) }
{
    let opposite = [i(Addi, 5, 0, 2), r(Sub, 5, 5, a), r(And, 31, 5, a)];
    items.extend_from_slice(&opposite)?;
    put_unless(items, labels, Bge, 31, 0, Routine::Overflow)
}

fn absolute(items: &mut Vec<Item>, labels: &Labels, a: u8) -> Result<(), NoMemory>
    ensures { OnOk result (items.new.items ≡ items.old.items ++ absolute labels.now a) }
{
    let opposite = [
        i(Addi, 5, a, 0),
        s(Bge, 5, 0, 24),
        i(Addi, 5, 0, 2),
        r(Sub, 5, 5, a),
    ];
    items.extend_from_slice(&opposite)?;
    put_unless(items, labels, Bge, 5, 0, Routine::Overflow)
}

fn less(items: &mut Vec<Item>, a: u8, b: u8) -> Result<(), NoMemory>
    ensures { OnOk result (items.new.items ≡ items.old.items ++ less a b) }
{
    items.extend_from_slice(&[r(Slt, 5, a, b), i(Slli, 5, 5, 1), i(Addi, 5, 5, 1)])?;
    Ok(())
}

fn not_less(items: &mut Vec<Item>, a: u8, b: u8) -> Result<(), NoMemory>
    ensures { OnOk result (items.new.items ≡ items.old.items ++ not_less a b) }
{
    let test = [
        r(Slt, 5, a, b),
        i(Xori, 5, 5, 1),
        i(Slli, 5, 5, 1),
        i(Addi, 5, 5, 1),
    ];
    items.extend_from_slice(&test)?;
    Ok(())
}

fn deref(items: &mut Vec<Item>, a: u8) -> Result<(), NoMemory>
    ensures { OnOk result (items.new.items ≡ items.old.items ++ deref a) }
{
    Ok(items.push(i(Ld, 5, a, 8))?)
}

fn assign(items: &mut Vec<Item>, a: u8, b: u8) -> Result<(), NoMemory>
    ensures { OnOk result (items.new.items ≡ items.old.items ++ assign a b) }
{
    items.push(s(Sd, a, b, 8))?;
    put_empty_record(items)
}

fn chr(items: &mut Vec<Item>, labels: &Labels, a: u8) -> Result<(), NoMemory>
    ensures { OnOk result (items.new.items ≡ items.old.items ++ chr labels.now a) }
{
    items.push(i(Sltiu, 7, a, 512))?;
    put_unless(items, labels, Bne, 7, 0, Routine::Chr)?;
    Ok(items.push(i(Addi, 5, a, 0))?)
}

fn on_one(
    items: &mut Vec<Item>,
    labels: &Labels,
    primitive: Primitive,
    a: u8,
) -> Result<(), NoMemory>
    ensures { OnOk result (items.new.items ≡ items.old.items ++ of_one labels.now primitive a) }
{
    match primitive {
        Primitive::Negate => negate(items, labels, a),
        Primitive::Abs => absolute(items, labels, a),
        Primitive::Deref => deref(items, a),
        Primitive::Ord => Ok(items.push(i(Addi, 5, a, 0))?),
        Primitive::Chr => chr(items, labels, a),
        _ => Ok(()),
    }
}

fn on_two(
    items: &mut Vec<Item>,
    labels: &Labels,
    primitive: Primitive,
    a: u8,
    b: u8,
) -> Result<(), NoMemory>
    ensures { OnOk result (items.new.items ≡ items.old.items ++ of_two labels.now primitive a b) }
{
    match primitive {
        Primitive::Plus => plus(items, labels, a, b),
        Primitive::Minus => minus(items, labels, a, b),
        Primitive::Times => times(items, labels, a, b),
        Primitive::Quotient => quotient(items, labels, a, b),
        Primitive::Modulo => modulo(items, labels, a, b),
        Primitive::Less => less(items, a, b),
        Primitive::Greater => less(items, b, a),
        Primitive::AtMost => not_less(items, b, a),
        Primitive::AtLeast => not_less(items, a, b),
        Primitive::Assign => assign(items, a, b),
        _ => Ok(()),
    }
}

/// Whether twice the int fits into an instruction.
fn is_small(number: i64) -> bool
    ensures { result ≡ is_small number }
{
    -1024 < number && number < 1024
}

fn opposite(number: i64) -> i64
    requires { is_small number ≡ true }
    ensures value { result ≡ neg_ℤ number }
    ensures small { is_small result ≡ true }
{
    -number
}

fn grown_by(number: i64) -> Op
    ensures { result ≡ grown_by number }
{
    if number >= 0 { Bge } else { Blt }
}

// A small int more than what the register has.
fn add_small(items: &mut Vec<Item>, labels: &Labels, number: i64, a: u8) -> Result<(), NoMemory>
    requires { is_small number ≡ true }
    ensures { OnOk result (items.new.items ≡ items.old.items ++ more labels.now number a) }
{
    items.push(i(Addi, 5, a, (number + number) as i32))?;
    put_unless(items, labels, grown_by(number), 5, a, Routine::Overflow)
}

fn add_to_source(
    items: &mut Vec<Item>,
    labels: &Labels,
    number: i64,
    source: &Source,
) -> Result<(), NoMemory>
    requires { is_small number ≡ true }
    ensures { OnOk result (items.new.items ≡ items.old.items ++ source_more labels.now number source.now) }
{
    let a = get(items, labels, 6, source)?;
    add_small(items, labels, number, a)
}

/// A call of a routine.
pub(crate) fn put_link(
    items: &mut Vec<Item>,
    labels: &Labels,
    routine: Routine,
) -> Result<(), NoMemory>
    ensures { OnOk result (items.new.items ≡ items.old.items ++ link labels.now routine) }
{
    let label = routine_label(labels, routine)?;
    items.push(Item::Address(31, label))?;
    Ok(items.push(i(Jalr, 31, 31, 0))?)
}

/// The routine that does it, if one does.
fn routine_of(primitive: Primitive) -> Option<Routine>
    ensures { result ≡ routine_of primitive }
{
    match primitive {
        Primitive::Concat => Some(Routine::Concat),
        Primitive::Size => Some(Routine::Size),
        Primitive::Str => Some(Routine::StrOf),
        Primitive::Implode => Some(Routine::Implode),
        Primitive::Sub => Some(Routine::Sub),
        Primitive::Substring => Some(Routine::Substring),
        Primitive::Compare => Some(Routine::Compare),
        Primitive::Print => Some(Routine::Print),
        Primitive::InputLine => Some(Routine::InputLine),
        _ => None,
    }
}

fn fetch_arguments(
    items: &mut Vec<Item>,
    labels: &Labels,
    sources: &[Source],
) -> Result<(), NoMemory>
    ensures { OnOk result (items.new.items ≡ items.old.items ++ arguments labels.now sources.now) }
{
    match sources {
        [a] => fetch(items, labels, None, 5, a),
        [a, b] => {
            fetch(items, labels, None, 5, a)?;
            fetch(items, labels, None, 6, b)
        }
        [a, b, c] => {
            fetch(items, labels, None, 5, a)?;
            fetch(items, labels, None, 6, b)?;
            fetch(items, labels, None, 7, c)
        }
        _ => Ok(()),
    }
}

fn put_routine_result(items: &mut Vec<Item>, primitive: Primitive) -> Result<(), NoMemory>
    ensures { OnOk result (items.new.items ≡ items.old.items ++ routine_result primitive) }
{
    match primitive {
        Primitive::Print => put_empty_record(items),
        _ => Ok(()),
    }
}

fn call_routine(
    items: &mut Vec<Item>,
    labels: &Labels,
    primitive: Primitive,
    routine: Routine,
    sources: &[Source],
) -> Result<(), NoMemory>
    ensures { OnOk result (items.new.items ≡ items.old.items ++ called labels.now primitive routine sources.now) }
{
    fetch_arguments(items, labels, sources)?;
    put_link(items, labels, routine)?;
    put_routine_result(items, primitive)
}

fn get_two(
    items: &mut Vec<Item>,
    labels: &Labels,
    primitive: Primitive,
    left: &Source,
    right: &Source,
) -> Result<(), NoMemory>
    ensures { OnOk result (items.new.items ≡ items.old.items ++ two_got labels.now primitive left.now right.now) }
{
    let a = get(items, labels, 6, left)?;
    let b = get(items, labels, 7, right)?;
    on_two(items, labels, primitive, a, b)
}

fn add(
    items: &mut Vec<Item>,
    labels: &Labels,
    left: &Source,
    right: &Source,
) -> Result<(), NoMemory>
    ensures { OnOk result (items.new.items ≡ items.old.items ++ summed labels.now left.now right.now) }
{
    match (left, right) {
        (Source::Literal(number), _) => {
            if is_small(*number) {
                add_to_source(items, labels, *number, right)
            } else {
                get_two(items, labels, Primitive::Plus, left, right)
            }
        }
        (_, Source::Literal(number)) => {
            if is_small(*number) {
                add_to_source(items, labels, *number, left)
            } else {
                get_two(items, labels, Primitive::Plus, left, right)
            }
        }
        _ => get_two(items, labels, Primitive::Plus, left, right),
    }
}

fn subtract(
    items: &mut Vec<Item>,
    labels: &Labels,
    left: &Source,
    right: &Source,
) -> Result<(), NoMemory>
    ensures { OnOk result (items.new.items ≡ items.old.items ++ differed labels.now left.now right.now) }
{
    match right {
        Source::Literal(number) => {
            if is_small(*number) {
                add_to_source(items, labels, opposite(*number), left)
            } else {
                get_two(items, labels, Primitive::Minus, left, right)
            }
        }
        _ => get_two(items, labels, Primitive::Minus, left, right),
    }
}

fn do_two(
    items: &mut Vec<Item>,
    labels: &Labels,
    primitive: Primitive,
    left: &Source,
    right: &Source,
) -> Result<(), NoMemory>
    ensures { OnOk result (items.new.items ≡ items.old.items ++ on_two labels.now primitive left.now right.now) }
{
    match primitive {
        Primitive::Plus => add(items, labels, left, right),
        Primitive::Minus => subtract(items, labels, left, right),
        _ => get_two(items, labels, primitive, left, right),
    }
}

fn do_inline(
    items: &mut Vec<Item>,
    labels: &Labels,
    primitive: Primitive,
    sources: &[Source],
) -> Result<(), NoMemory>
    ensures { OnOk result (items.new.items ≡ items.old.items ++ inline labels.now primitive sources.now) }
{
    match sources {
        [] => put_empty_record(items),
        [one] => {
            let a = get(items, labels, 6, one)?;
            on_one(items, labels, primitive, a)
        }
        [left, right] => do_two(items, labels, primitive, left, right),
        _ => Ok(()),
    }
}

/// x5 gets the result of a primitive.
pub fn do_primitive(
    items: &mut Vec<Item>,
    labels: &Labels,
    primitive: Primitive,
    sources: &[Source],
) -> Result<(), NoMemory>
    ensures { OnOk result (items.new.items ≡ items.old.items ++ primitive_done labels.now primitive sources.now) }
{
    match routine_of(primitive) {
        Some(routine) => call_routine(items, labels, primitive, routine, sources),
        None => do_inline(items, labels, primitive, sources),
    }
}
