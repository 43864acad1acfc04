//! The walk over what is reached.

ghost use Rattle.std.specs.Prelude.{◌≡◌, ◌<◌, ◌≤◌, ◌+◌, [], Some};
ghost use Rattle.rv_run.specs.Heap as heap;
ghost use Rattle.rv_run.specs.Heap.{heap_word};
ghost use Rattle.rv_run.specs.Counted.{PointsTo, IsCount, block_size};
ghost use Rattle.heap_reach.specs.Numbers.{Adds};
ghost use Rattle.heap_reach.specs.Walk.{IsRoot, IsField, IsChild, IsBlock};

use crate::heap::{Arena, body_words, is_string};
use crate::numbers::NumberSet;
use rv_machine::Machine;

/// How many words of the arena are reached, with headers, and in how many blocks.
#[derive(Clone, Copy, PartialEq, Eq, Debug)]
pub struct Count {
    pub words: u64,
    pub blocks: u64,
}

// The block to which a word points is found.
fn add_target(arena: Arena, machine: &Machine, found: &mut NumberSet, word: u64)
    requires { arena.words ≤ found.old.room }
    ensures room { found.new.room ≡ found.old.room }
    ensures adds { Adds (PointsTo arena.address arena.words machine.now.state word) found.old.numbers found.new.numbers }
{
    let _ = found.len();
    if let Some(number) = arena.target(machine, word) {
        found.add(number);
    }
}

fn add_roots(arena: Arena, machine: &Machine, found: &mut NumberSet, roots: &[u64])
    requires { arena.words ≤ found.old.room }
    ensures room { found.new.room ≡ found.old.room }
    ensures adds { Adds (IsRoot arena.address arena.words machine.now.state roots.now) found.old.numbers found.new.numbers }
{
    for root in roots {
        add_target(arena, machine, found, *root);
    }
}

fn add_field(arena: Arena, machine: &Machine, found: &mut NumberSet, number: u64)
    requires room { arena.words ≤ found.old.room }
    requires within { number < arena.words }
    ensures room { found.new.room ≡ found.old.room }
    ensures adds { Adds (IsField arena.address arena.words machine.now.state number 1) found.old.numbers found.new.numbers }
{
    if let Some(word) = arena.word(machine, number) {
        add_target(arena, machine, found, word);
    }
}

// The blocks to which so many words point from one on.
fn add_fields(arena: Arena, machine: &Machine, found: &mut NumberSet, first: u64, count: u64)
    requires room { arena.words ≤ found.old.room }
    requires within { first + count ≤ arena.words }
    ensures room { found.new.room ≡ found.old.room }
    ensures adds { Adds (IsField arena.address arena.words machine.now.state first count) found.old.numbers found.new.numbers }
{
    for k in 0..count {
        add_field(arena, machine, found, first + k);
    }
}

// The blocks to which the fields of the block with this header point.
fn add_children(arena: Arena, machine: &Machine, found: &mut NumberSet, number: u64, header: u64)
    requires room { arena.words ≤ found.old.room }
    requires stands { heap_word arena.address machine.now.state number ≡ Some header }
    requires within { number + (heap.body_words header + 1) ≤ arena.words }
    ensures room { found.new.room ≡ found.old.room }
    ensures adds { Adds (IsChild arena.address arena.words machine.now.state number) found.old.numbers found.new.numbers }
{
    if !is_string(header) {
        add_fields(arena, machine, found, number + 1, body_words(header));
    }
}

// The blocks to which the fields of a block point. Answers how many words it has.
fn look_into(arena: Arena, machine: &Machine, found: &mut NumberSet, number: u64) -> u64
    requires room { arena.words ≤ found.old.room }
    requires block { IsBlock arena.address arena.words machine.now.state number }
    ensures room { found.new.room ≡ found.old.room }
    ensures size { result ≡ block_size (heap_word arena.address machine.now.state number) }
    ensures adds { Adds (IsChild arena.address arena.words machine.now.state number) found.old.numbers found.new.numbers }
{
    let Some(header) = arena.word(machine, number) else {
        return 0;
    };
    add_children(arena, machine, found, number, header);
    body_words(header) + 1
}

/// Finds all that is reached from the roots, and counts it.
pub fn walk(arena: Arena, machine: &Machine, found: &mut NumberSet, roots: &[u64]) -> Count
    requires room { arena.words ≤ found.old.room }
    requires none { found.old.numbers ≡ [] }
    ensures room { found.new.room ≡ found.old.room }
    ensures count { IsCount arena.address arena.words machine.now.state roots.now result.words result.blocks }
{
    add_roots(arena, machine, found, roots);
    let mut done = 0;
    let mut words = 0;
    while done < found.len() {
        let number = found.at(done) as u64;
        words += look_into(arena, machine, found, number);
        done += 1;
    }
    Count {
        words,
        blocks: done as u64,
    }
}
