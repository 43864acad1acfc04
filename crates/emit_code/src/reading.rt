//! Words that come into registers from sources, and into homes from registers.

ghost use Rattle.std.specs.Prelude.{◌≡◌, ◌∷◌, ◌++◌, ◌*◌, ◌+◌, suc, IfOk, OnOk};
ghost use Rattle.smlc_base.specs.Exceptions.{exn_number};
ghost use Rattle.emit_items.specs.Reading.{word_loaded, word_stored, behind, before, followed, read_along, held, where_got, static_label, routine_label, fetched, got, home_register, put_away, taken, named, handler_kept, let_in, handler_set};

use crate::constants::{load, load_scalar};
use crate::items::{FRAME, FREE, HANDLER, i, put_moved, r, register_in, s, value_register};
use crate::numbers::sum;
use closure_ir::Static;
use emit_items::Labels;
use placed_ir::{Home, Source};
use rt_prims::Routine;
use rv_asm::Item;
use rv_isa::Op::{Add, Addi, Ld, Sd, Sub};
use smlc_base::{LibraryExn, NoMemory};

/// The register gets the word so many bytes behind the address in another.
pub(crate) fn load_word(items: &mut Vec<Item>, rd: u8, base: u8, bytes: u64) -> Result<(), NoMemory>
    ensures { OnOk result (items.new.items ≡ items.old.items ++ word_loaded rd base bytes) }
{
    if bytes < 2048 {
        return Ok(items.push(i(Ld, rd, base, bytes as i32))?);
    }
    load(items, 31, bytes)?;
    items.push(r(Add, 31, 31, base))?;
    Ok(items.push(i(Ld, rd, 31, 0))?)
}

/// What the register has goes so many bytes behind the address in another.
pub(crate) fn store_word(items: &mut Vec<Item>, base: u8, a: u8, bytes: u64) -> Result<(), NoMemory>
    ensures { OnOk result (items.new.items ≡ items.old.items ++ word_stored base a bytes) }
{
    if bytes < 2048 {
        return Ok(items.push(s(Sd, base, a, bytes as i32))?);
    }
    load(items, 31, bytes)?;
    items.push(r(Add, 31, 31, base))?;
    Ok(items.push(s(Sd, 31, a, 0))?)
}

/// The register becomes the address so many bytes behind another's.
pub(crate) fn put_behind(
    items: &mut Vec<Item>,
    rd: u8,
    base: u8,
    bytes: u64,
) -> Result<(), NoMemory>
    ensures { OnOk result (items.new.items ≡ items.old.items ++ behind rd base bytes) }
{
    if bytes < 2048 {
        return Ok(items.push(i(Addi, rd, base, bytes as i32))?);
    }
    load(items, 31, bytes)?;
    Ok(items.push(r(Add, rd, base, 31))?)
}

fn put_before(items: &mut Vec<Item>, rd: u8, base: u8, bytes: u64) -> Result<(), NoMemory>
    ensures { OnOk result (items.new.items ≡ items.old.items ++ before rd base bytes) }
{
    if bytes <= 2048 {
        return Ok(items.push(i(Addi, rd, base, -(bytes as i32)))?);
    }
    load(items, 31, bytes)?;
    Ok(items.push(r(Sub, rd, base, 31))?)
}

/// The bytes from a block's header to a field.
pub(crate) fn field_bytes(step: u32) -> u64
    ensures { result ≡ 8 * suc step }
{
    8 * (step as u64 + 1)
}

/// From an address in the register on along fields.
pub(crate) fn follow(items: &mut Vec<Item>, rd: u8, steps: &[u32]) -> Result<(), NoMemory>
    ensures { OnOk result (items.new.items ≡ items.old.items ++ followed rd steps.now) }
{
    for step in steps {
        load_word(items, rd, rd, field_bytes(*step))?;
    }
    Ok(())
}

/// The same from another register.
fn read_along(items: &mut Vec<Item>, rd: u8, a: u8, steps: &[u32]) -> Result<(), NoMemory>
    ensures { OnOk result (items.new.items ≡ items.old.items ++ read_along rd a steps.now) }
{
    match steps {
        [] => put_moved(items, rd, a),
        [step, rest @ ..] => {
            load_word(items, rd, a, field_bytes(*step))?;
            follow(items, rd, rest)
        }
    }
}

fn read_spilled(items: &mut Vec<Item>, rd: u8, word: u32, steps: &[u32]) -> Result<(), NoMemory>
    ensures { OnOk result (items.new.items ≡ items.old.items ++ read_along rd 2 (word ∷ steps.now)) }
{
    load_word(items, rd, FRAME, field_bytes(word))?;
    follow(items, rd, steps)
}

/// The number of an exception of the library.
fn number_of(exn: LibraryExn) -> u32
    ensures { result ≡ exn_number exn }
{
    match exn {
        LibraryExn::MatchExn => 0,
        LibraryExn::BindExn => 1,
        LibraryExn::DivExn => 2,
        LibraryExn::OverflowExn => 3,
        LibraryExn::ChrExn => 4,
        LibraryExn::SubscriptExn => 5,
        LibraryExn::SizeExn => 6,
        LibraryExn::EmptyExn => 7,
        LibraryExn::OptionExn => 8,
        LibraryExn::DomainExn => 9,
        LibraryExn::FailExn => 10,
    }
}

fn static_label(labels: &Labels, block: Static) -> Result<u32, NoMemory>
    ensures { IfOk result (λ label. label ≡ static_label labels.now block) }
{
    match block {
        Static::Function(label) => sum(labels.closures, label.0),
        Static::Text(text) => sum(labels.texts, text),
        Static::Library(exn) => sum(labels.names, number_of(exn)),
    }
}

/// The label of a routine.
pub(crate) fn routine_label(labels: &Labels, routine: Routine) -> Result<u32, NoMemory>
    ensures { IfOk result (λ label. label ≡ routine_label labels.now routine) }
{
    sum(labels.routines, routine.number())
}

/// The register gets the word, where the value of one may have been saved in x5.
pub fn fetch(
    items: &mut Vec<Item>,
    labels: &Labels,
    saved: Option<u32>,
    rd: u8,
    source: &Source,
) -> Result<(), NoMemory>
    ensures { OnOk result (items.new.items ≡ items.old.items ++ fetched labels.now saved rd source.now) }
{
    match source {
        Source::Along { home, steps } => match *home {
            Home::Register(k) => read_along(items, rd, register_in(saved, k), steps.steps()),
            Home::Spill(word) => read_spilled(items, rd, word, steps.steps()),
        },
        Source::Fresh(words) => put_behind(items, rd, FREE, 8 * *words as u64),
        Source::Static(block) => {
            let label = static_label(labels, *block)?;
            Ok(items.push(Item::Address(rd, label))?)
        }
        Source::Code(label) => Ok(items.push(Item::Address(rd, label.0))?),
        Source::Literal(number) => load_scalar(items, rd, *number),
    }
}

/// The register that has the word already.
fn held(source: &Source) -> Option<u8>
    ensures { result ≡ held source.now }
{
    match source {
        Source::Along { home, steps } => match (*home, steps.steps()) {
            (Home::Register(k), []) => Some(value_register(k)),
            _ => None,
        },
        _ => None,
    }
}

/// The register gets the word where it stands in none, and the answer is the register where it stands.
pub fn get(items: &mut Vec<Item>, labels: &Labels, rd: u8, source: &Source) -> Result<u8, NoMemory>
    ensures register { IfOk result (λ a. a ≡ where_got rd source.now) }
    ensures items { OnOk result (items.new.items ≡ items.old.items ++ got labels.now rd source.now) }
{
    match held(source) {
        Some(a) => Ok(a),
        None => {
            fetch(items, labels, None, rd, source)?;
            Ok(rd)
        }
    }
}

/// The register that a word for the home is put in.
pub(crate) fn home_register(home: Home) -> u8
    ensures { result ≡ home_register home }
{
    match home {
        Home::Register(k) => value_register(k),
        Home::Spill(_) => 5,
    }
}

/// From there it goes on into the spill record.
pub(crate) fn put_away(items: &mut Vec<Item>, home: Home) -> Result<(), NoMemory>
    ensures { OnOk result (items.new.items ≡ items.old.items ++ put_away home) }
{
    match home {
        Home::Register(_) => Ok(()),
        Home::Spill(word) => store_word(items, FRAME, 5, field_bytes(word)),
    }
}

/// The home gets what a primitive has left in x5.
pub(crate) fn take(items: &mut Vec<Item>, home: Home) -> Result<(), NoMemory>
    ensures { OnOk result (items.new.items ≡ items.old.items ++ taken home) }
{
    put_moved(items, home_register(home), 5)?;
    put_away(items, home)
}

/// The home gets the address so many bytes before the next free one.
pub(crate) fn name(items: &mut Vec<Item>, home: Home, bytes: u64) -> Result<(), NoMemory>
    ensures { OnOk result (items.new.items ≡ items.old.items ++ named home bytes) }
{
    put_before(items, home_register(home), FREE, bytes)?;
    put_away(items, home)
}

/// The home gets the value of the handler register.
pub(crate) fn keep_handler(items: &mut Vec<Item>, home: Home) -> Result<(), NoMemory>
    ensures { OnOk result (items.new.items ≡ items.old.items ++ handler_kept home) }
{
    put_moved(items, home_register(home), HANDLER)?;
    put_away(items, home)
}

/// The home gets the word.
pub(crate) fn let_in(
    items: &mut Vec<Item>,
    labels: &Labels,
    home: Home,
    source: &Source,
) -> Result<(), NoMemory>
    ensures { OnOk result (items.new.items ≡ items.old.items ++ let_in labels.now home source.now) }
{
    fetch(items, labels, None, home_register(home), source)?;
    put_away(items, home)
}

/// Sets the handler register.
pub(crate) fn set_handler(
    items: &mut Vec<Item>,
    labels: &Labels,
    source: &Source,
) -> Result<(), NoMemory>
    ensures { OnOk result (items.new.items ≡ items.old.items ++ handler_set labels.now source.now) }
{
    fetch(items, labels, None, HANDLER, source)
}
