//! What a job came to, and the line and the status that tell it.

ghost use Rattle.std.specs.Prelude.{◌≡◌, ◌++◌, IfOk, OnOk, codes, ◌∷◌, [], map};
ghost use Rattle.std.specs.Fmt.{decimal};
ghost use Rattle.std.specs.Int.{w32, w64, to_be_bytes};
ghost use Rattle.hex.specs.Hex.{encode_lower};
ghost use Rattle.elf_static.specs.Kinds.{word_of as word_of_kind};
ghost use Rattle.smlc_jobs.specs.Texts.{name_at, place_text, banned_text, refusal_line, refused_line, store_line, newline, elf_line, trap_line, steps_line, exit_line, full_line};
ghost use Rattle.smlc_jobs.specs.Write.{Whole, Said};
ghost use Rattle.smlc_jobs.specs.Outcome.{line_of, status_of, exit_outcome, ended_outcome};
ghost use Rattle.smlc_edge.specs.Edge.{Counts};
ghost use Rattle.std.specs.Prelude.{IsOk};

use crate::write::{say, say_line, write_both, write_line};
use elf_static::ElfKind;
use itoa::Buffer;
use smlc_base::{NoMemory, Place, Refusal};
use smlc_edge::{Failed, Sink};
use std::alloc::Global;

/// What a job came to.
#[derive(Drop)]
pub enum Outcome {
    /// All was done.
    Done,
    /// The program exited with this status, and with these numbers in x11 and x12.
    Exited { status: u8, x11: u64, x12: u64 },
    /// The program ended by an exception that nothing handles, and has told it itself.
    Uncaught,
    /// The program's arena was full: the words that were used, those of the record that found no room, and those of the arena.
    ArenaFull { used: u64, next: u64, arena: u64 },
    /// The program was refused, with the line that says so.
    Refused(Vec<u8>),
    /// So many instructions were done, and the program goes on.
    Steps(u64),
    /// There is no step; the word at pc, or 0 where none can be fetched.
    Trapped { pc: u64, word: u32 },
    /// The file is no ELF file that can be run: the check that failed, and its offset.
    NotElf(ElfKind, u64),
    /// Memory was wanting.
    NoMemory,
    /// The file of this number, counted from 0, wasn't loaded.
    LoadFault(usize),
    /// What was made wasn't saved.
    SaveFault,
    /// A read of the input failed.
    InputFault,
    /// A write on the output failed.
    OutFault,
    /// A write on the error stream failed.
    ErrFault,
}

/// The usage, which tells that the words are no command.
pub const USAGE: &[u8] = b"usage: smlc compile|run|meter|exec|types|plan|gen|bench\n";

/// Tells want of memory.
pub const MEMORY: &[u8] = b"want of memory\n";

/// The name of a number, counted from 0.
pub fn name_at<'a>(names: &[&'a str], at: usize) -> &'a str
    ensures { result.now ≡ name_at (map (λ name. name.now) names.now) at }
{
    match names.get(at) {
        Some(name) => name,
        None => "",
    }
}

/// What the outcome of a run is where the program was compiled with an arena of so many words.
pub fn ended(outcome: Outcome, arena: u64) -> Outcome
    ensures { result ≡ ended_outcome arena outcome }
{
    match outcome {
        Outcome::Exited { status, x11, x12 } => exit(arena, status, x11, x12),
        other => other,
    }
}

// What an exit says.
fn exit(arena: u64, status: u8, x11: u64, x12: u64) -> Outcome
    ensures { result ≡ exit_outcome arena status x11 x12 }
{
    match status {
        0 => Outcome::Done,
        1 => Outcome::Uncaught,
        3 => Outcome::ArenaFull {
            used: x11,
            next: x12,
            arena,
        },
        _ => Outcome::Exited { status, x11, x12 },
    }
}

/// Writes the line of what a job on these files came to, and answers its status, or 5 where the error stream failed. It takes no memory.
pub fn report<E: Sink>(err: &mut E, files: &[&str], target: &str, outcome: &Outcome) -> u8
    ensures said { Said (line_of (map (λ file. file.now) files.now) target.now outcome.now) (status_of outcome.now) result (E.faults err.old) (E.faults err.new) (E.taken err.old) (E.taken err.new) }
    ensures surely { E.sure err.old → result ≡ status_of outcome.now }
{
    match outcome {
        Outcome::Done => 0,
        Outcome::Exited { status, .. } => say_number(err, b"exit ", *status as u64, 0),
        Outcome::Uncaught => 1,
        Outcome::ArenaFull { used, next, arena } => say_full(err, *used, *next, *arena),
        Outcome::Refused(line) => say(err, line, 2),
        Outcome::Steps(steps) => say_number(err, b"steps ", *steps, 4),
        Outcome::Trapped { pc, word } => say_trap(err, *pc, *word),
        Outcome::NotElf(kind, at) => say_not_elf(err, *kind, *at),
        Outcome::NoMemory => say(err, MEMORY, 6),
        Outcome::LoadFault(at) => {
            say_line(err, b"fault store ", name_at(files, *at).as_bytes(), 5)
        }
        Outcome::SaveFault => say_line(err, b"fault store ", target.as_bytes(), 5),
        Outcome::InputFault => say(err, b"fault input\n", 5),
        Outcome::OutFault => say(err, b"fault out\n", 5),
        Outcome::ErrFault => 5,
    }
}

fn say_number<E: Sink>(err: &mut E, words: &[u8], number: u64, status: u8) -> u8
    ensures said { Said (words.now ++ decimal number ++ newline) status result (E.faults err.old) (E.faults err.new) (E.taken err.old) (E.taken err.new) }
    ensures surely { E.sure err.old → result ≡ status }
{
    let mut buffer = Buffer::new();
    say_line(err, words, buffer.format(number).as_bytes(), status)
}

// Words and a number, unless the sink fails.
fn write_number<E: Sink>(err: &mut E, words: &[u8], number: u64) -> Result<(), Failed>
    ensures whole { Whole (words.now ++ decimal number) result (E.taken err.old) (E.taken err.new) }
    ensures cause { Counts (E.faults err.old) (E.faults err.new) result }
    ensures surely { E.sure err.old → IsOk result × E.sure err.new }
{
    let mut buffer = Buffer::new();
    write_both(err, words, buffer.format(number).as_bytes())
}

fn say_full<E: Sink>(err: &mut E, used: u64, next: u64, arena: u64) -> u8
    ensures said { Said (full_line used next arena) 3 result (E.faults err.old) (E.faults err.new) (E.taken err.old) (E.taken err.new) }
    ensures surely { E.sure err.old → result ≡ 3 }
{
    match write_number(err, b"arena used ", used) {
        Ok(()) => say_room(err, next, arena),
        Err(_) => 5,
    }
}

// The line of a full arena, behind the words that were used.
fn say_room<E: Sink>(err: &mut E, next: u64, arena: u64) -> u8
    ensures said { Said (codes " next " ++ decimal next ++ (codes " of " ++ decimal arena ++ newline)) 3 result (E.faults err.old) (E.faults err.new) (E.taken err.old) (E.taken err.new) }
    ensures surely { E.sure err.old → result ≡ 3 }
{
    match write_number(err, b" next ", next) {
        Ok(()) => say_number(err, b" of ", arena, 3),
        Err(_) => 5,
    }
}

fn say_not_elf<E: Sink>(err: &mut E, kind: ElfKind, at: u64) -> u8
    ensures said { Said (elf_line kind at) 8 result (E.faults err.old) (E.faults err.new) (E.taken err.old) (E.taken err.new) }
    ensures surely { E.sure err.old → result ≡ 8 }
{
    let mut buffer = Buffer::new();
    let number = buffer.format(at);
    match write_both(err, b"not elf ", kind.word().as_bytes()) {
        Ok(()) => say_line(err, b" at ", number.as_bytes(), 8),
        Err(_) => 5,
    }
}

fn say_trap<E: Sink>(err: &mut E, pc: u64, word: u32) -> u8
    ensures said { Said (trap_line pc word) 9 result (E.faults err.old) (E.faults err.new) (E.taken err.old) (E.taken err.new) }
    ensures surely { E.sure err.old → result ≡ 9 }
{
    let pc_digits = double_digits(pc);
    let word_digits = word_digits(word);
    match write_both(err, b"trap ", &pc_digits) {
        Ok(()) => say_line(err, b" ", &word_digits, 9),
        Err(_) => 5,
    }
}

// The 16 hexadecimal digits of a number.
fn double_digits(number: u64) -> [u8; 16]
    ensures { result ≡ encode_lower (to_be_bytes w64 number) }
{
    let mut digits = [0u8; 16];
    match hex::encode_to_slice(number.to_be_bytes(), &mut digits) {
        Ok(()) => digits,
        Err(_) => unreachable!(),
    }
}

// The 8 hexadecimal digits of a number.
fn word_digits(number: u32) -> [u8; 8]
    ensures { result ≡ encode_lower (to_be_bytes w32 number) }
{
    let mut digits = [0u8; 8];
    match hex::encode_to_slice(number.to_be_bytes(), &mut digits) {
        Ok(()) => digits,
        Err(_) => unreachable!(),
    }
}

// The line of a refusal of a file.
fn refusal_text(alloc: Global, name: &str, refusal: &Refusal) -> Result<Vec<u8>, NoMemory>
    ensures { IfOk result (λ text. text.items ≡ refusal_line name.now refusal.now) }
{
    let number = refusal.number().to_string(alloc)?;
    let mut text = place_of(alloc, name, refusal.place())?;
    text.extend_from_slice(b" refused ")?;
    text.extend_from_slice(number.as_str().as_bytes())?;
    text.extend_from_slice(b" ")?;
    text.extend_from_slice(refusal.kind().as_bytes())?;
    put_banned(&mut text, refusal)?;
    text.extend_from_slice(b"\n")?;
    Ok(text)
}

// FILE:LINE:COL:
fn place_of(alloc: Global, name: &str, place: Place) -> Result<Vec<u8>, NoMemory>
    ensures { IfOk result (λ text. text.items ≡ place_text name.now place) }
{
    let line = place.line.to_string(alloc)?;
    let col = place.col.to_string(alloc)?;
    let mut text = name.as_bytes().to_vec(alloc)?;
    text.extend_from_slice(b":")?;
    text.extend_from_slice(line.as_str().as_bytes())?;
    text.extend_from_slice(b":")?;
    text.extend_from_slice(col.as_str().as_bytes())?;
    text.extend_from_slice(b":")?;
    Ok(text)
}

// The word that is banned, behind a space.
fn put_banned(text: &mut Vec<u8>, refusal: &Refusal) -> Result<(), NoMemory>
    ensures { OnOk result (text.new.items ≡ text.old.items ++ banned_text refusal.now) }
{
    if let Refusal::NotInSubset(_, banned) = refusal {
        text.extend_from_slice(b" ")?;
        text.extend_from_slice(banned.word().as_bytes())?;
    }
    Ok(())
}

/// The line of a refusal of the files of these names.
pub fn refused_text(alloc: Global, names: &[&str], refusal: &Refusal) -> Result<Vec<u8>, NoMemory>
    ensures { IfOk result (λ text. text.items ≡ refused_line (map (λ name. name.now) names.now) refusal.now) }
{
    let file = refusal.place().file.saturating_sub(1);
    let name = name_at(names, file as usize);
    refusal_text(alloc, name, refusal)
}
