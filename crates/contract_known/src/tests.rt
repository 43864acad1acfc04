//! What is known of tests.

ghost use Rattle.std.specs.Prelude.{◌≡◌, IfOk};
ghost use Rattle.contract_laws.specs.Contract.{says_made};
ghost use Rattle.smlc_base.specs.Exceptions.{exn_number};
ghost use Rattle.contract_known.specs.Known.{place_of, made_at, as_left, scalar_of, shape_at, says_of_scalar, says_texts, says_names, says_known, says_shape, answer_known, verdict_known, tests_known, AreLeft};

use crate::blocks::{Block, at_end, known_shape};
use crate::places::test_in;
use cps_ir::{Atom, Constant, Shape, Test, Variable, Wanted};
use smlc_base::{Bytes, LibraryExn, NoMemory, Row, Tag};
use std::alloc::Global;

/// What is left of a rule's tests.
#[derive(Drop)]
pub enum Left {
    /// One of them is known to fail.
    Fails,
    /// Those whose answer isn't known.
    Remain(Row<Test>),
}

// A constant that is a scalar.
fn scalar_of(constant: Constant) -> Option<i64>
    ensures { result ≡ scalar_of constant }
{
    match constant {
        Constant::Int(z) => Some(z),
        Constant::Char(c) => Some(i64::from(c)),
        Constant::Nothing => Some(0),
        Constant::Tag(n) => Some(i64::from(n)),
        Constant::StdIn => Some(0),
        _ => None,
    }
}

fn says_of_scalar(z: i64, constant: Constant) -> Option<bool>
    ensures { result ≡ says_of_scalar z (scalar_of constant) }
{
    match scalar_of(constant) {
        Some(m) => Some(z == m),
        None => None,
    }
}

// Whether two string constants are the same.
fn says_texts(texts: &[Bytes], t: u32, u: u32) -> Option<bool>
    ensures { result ≡ says_texts texts.now t u }
{
    match texts.get(t as usize) {
        Some(wanted) => match texts.get(u as usize) {
            Some(text) => Some(wanted.items() == text.items()),
            None => None,
        },
        None => None,
    }
}

fn exn_number(e: LibraryExn) -> u32
    ensures { result ≡ exn_number e }
{
    match e {
        LibraryExn::MatchExn => 0,
        LibraryExn::BindExn => 1,
        LibraryExn::DivExn => 2,
        LibraryExn::OverflowExn => 3,
        LibraryExn::ChrExn => 4,
        LibraryExn::SubscriptExn => 5,
        LibraryExn::SizeExn => 6,
        LibraryExn::EmptyExn => 7,
        LibraryExn::OptionExn => 8,
        LibraryExn::DomainExn => 9,
        LibraryExn::FailExn => 10,
    }
}

// Whether one exception name of the library is the other, which needs no argument.
fn says_names(applied: bool, one: LibraryExn, other: LibraryExn) -> Option<bool>
    ensures { result ≡ says_names applied one other }
{
    if exn_number(one) == exn_number(other) {
        if applied { None } else { Some(true) }
    } else {
        Some(false)
    }
}

fn says(texts: &[Bytes], want: Wanted, constant: Constant) -> Option<bool>
    ensures { result ≡ says_known texts.now want constant }
{
    match want {
        Wanted::Num(z) => says_of_scalar(z, constant),
        Wanted::Tag(tag) => says_of_scalar(i64::from(tag.number), constant),
        Wanted::Text(t) => match constant {
            Constant::Text(u) => says_texts(texts, t, u),
            _ => None,
        },
        Wanted::Exn { name, applied } => match (name, constant) {
            (Atom::Constant(Constant::Library(one)), Constant::Library(other)) => {
                says_names(applied, one, other)
            }
            _ => None,
        },
    }
}

fn says_made(want: Wanted, shape: Shape) -> Option<bool>
    ensures { result ≡ says_made want shape }
{
    match (want, shape) {
        (Wanted::Tag(tag), Shape::Applied(n)) => Some(tag.number == n),
        _ => None,
    }
}

fn says_of_var(blocks: &[Option<Block>], root: u32, want: Wanted, x: Variable) -> Option<bool>
    ensures { result ≡ says_shape want (shape_at (made_at blocks.now root) x) }
{
    match known_shape(blocks, root, x) {
        Some(shape) => says_made(want, shape),
        None => None,
    }
}

fn answer(
    texts: &[Bytes],
    blocks: &[Option<Block>],
    root: u32,
    want: Wanted,
    atom: Atom,
) -> Option<bool>
    ensures { result ≡ answer_known texts.now (made_at blocks.now root) want atom }
{
    match atom {
        Atom::Var(x) => says_of_var(blocks, root, want, x),
        Atom::Constant(constant) => says(texts, want, constant),
    }
}

// Whether a test is known to hold or to fail.
fn verdict(
    texts: &[Bytes],
    blocks: &[Option<Block>],
    root: u32,
    atom: Atom,
    test: &Test,
) -> Option<bool>
    ensures { result ≡ verdict_known texts.now (made_at blocks.now root) atom test.now }
{
    match at_end(blocks, root, atom, test.path.steps()) {
        Some(found) => answer(texts, blocks, root, test.want, found),
        None => None,
    }
}

fn left_of(
    alloc: Global,
    texts: &[Bytes],
    places: &[Atom],
    blocks: &[Option<Block>],
    root: u32,
    atom: Atom,
    tests: &[Test],
) -> Result<Left, NoMemory>
    ensures { IfOk result (λ l. as_left l ≡ tests_known texts.now (place_of places.now) (made_at blocks.now root) atom tests.now) }
{
    let mut left = Vec::new(alloc);
    for test in tests {
        match verdict(texts, blocks, root, atom, test) {
            Some(true) => {}
            Some(false) => return Ok(Left::Fails),
            None => {
                left.push(test_in(alloc, places, test)?)?;
            }
        }
    }
    Ok(Left::Remain(Row::from_vec(left)))
}

/// What is left of the tests of a rule of a match of this atom of the answer, in the function whose body has the number `root`.
///
/// # Errors
///
/// Want of memory.
pub fn tests_left(
    alloc: Global,
    texts: &[Bytes],
    places: &[Atom],
    blocks: &[Option<Block>],
    root: u32,
    atom: Atom,
    tests: &[Test],
) -> Result<Left, NoMemory>
    ensures { IfOk result (λ l. AreLeft texts.now (place_of places.now) (made_at blocks.now root) atom tests.now (as_left l)) }
{
    left_of(alloc, texts, places, blocks, root, atom, tests)
}
