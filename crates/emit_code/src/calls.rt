//! Calls: the moves of the function and the arguments to the first registers of values, all at once.

ghost use Rattle.std.specs.Prelude.{◌≡◌, ◌+◌, ◌++◌, None, Some, length, slice_get, remove, IfOk, OnOk};
ghost use Rattle.emit_items.specs.Ends.{source_at, reads, place_in, then_saved, saves, moves_from, is_read, first_free, fetched_from, move_done, next_moved, saved_next, left_next, all_moved, call};

use crate::ends::put_jump;
use crate::items::{i, is_saved, value_register};
use crate::making::count;
use crate::numbers::sum;
use crate::reading::fetch;
use closure_ir::Target;
use emit_items::Labels;
use placed_ir::{Home, Source};
use rv_asm::Item;
use rv_isa::Op::Addi;
use smlc_base::NoMemory;
use std::alloc::Global;

// Whether the source is found from this register, which still has its own value.
fn reads(saved: Option<u32>, k: u32, source: &Source) -> bool
    ensures { result ≡ reads saved k (Some source.now) }
{
    match source {
        Source::Along { home, .. } => match *home {
            Home::Register(j) => j == k && !is_saved(saved, k),
            Home::Spill(_) => false,
        },
        _ => false,
    }
}

// The same of what this move puts.
fn move_reads(function: &Source, sources: &[Source], saved: Option<u32>, k: u32, place: u32) -> bool
    ensures { result ≡ reads saved k (source_at function.now sources.now place) }
{
    if place == 0 {
        return reads(saved, k, function);
    }
    match sources.get(place as usize - 1) {
        Some(argument) => reads(saved, k, argument),
        None => false,
    }
}

// Whether another move reads this register.
fn is_read(function: &Source, sources: &[Source], saved: Option<u32>, k: u32, moves: &[u32]) -> bool
    ensures { result ≡ is_read function.now sources.now saved k moves.now }
{
    for place in moves {
        if *place != k && move_reads(function, sources, saved, k, *place) {
            return true;
        }
    }
    false
}

// The place of the first move to a register that none of all reads.
fn first_free(
    function: &Source,
    sources: &[Source],
    saved: Option<u32>,
    moves: &[u32],
) -> Option<usize>
    ensures { result ≡ first_free function.now sources.now saved moves.now moves.now 0 }
{
    let mut at = 0;
    for place in moves {
        if !is_read(function, sources, saved, *place, moves) {
            return Some(at);
        }
        at += 1;
    }
    None
}

// What a move puts.
fn fetch_move(
    items: &mut Vec<Item>,
    labels: &Labels,
    function: &Source,
    sources: &[Source],
    saved: Option<u32>,
    place: u32,
) -> Result<(), NoMemory>
    ensures { OnOk result (items.new.items ≡ items.old.items ++ fetched_from labels.now saved place (source_at function.now sources.now place)) }
{
    let rd = value_register(place);
    if place == 0 {
        return fetch(items, labels, saved, rd, function);
    }
    let argument = place as usize - 1;
    if argument < sources.len() {
        fetch(items, labels, saved, rd, &sources[argument])
    } else {
        Ok(())
    }
}

// Where no register is free, what the first one has is saved in x5. The answer is the one that is saved from now on.
fn save(
    items: &mut Vec<Item>,
    next: Option<usize>,
    saved: Option<u32>,
    moves: &[u32],
) -> Result<Option<u32>, NoMemory>
    ensures saved { IfOk result (λ s. s ≡ then_saved next saved moves.now) }
    ensures items { OnOk result (items.new.items ≡ items.old.items ++ saves next moves.now) }
{
    match (next, moves) {
        (None, [first, ..]) => {
            items.push(i(Addi, 5, value_register(*first), 0))?;
            Ok(Some(*first))
        }
        _ => Ok(saved),
    }
}

fn place_in(next: Option<usize>) -> usize
    ensures { result ≡ place_in next }
{
    match next {
        Some(at) => at,
        None => 0,
    }
}

// The move of this place among those that are left.
fn do_move(
    items: &mut Vec<Item>,
    labels: &Labels,
    function: &Source,
    sources: &[Source],
    saved: Option<u32>,
    moves: &mut Vec<u32>,
    at: usize,
) -> Result<(), NoMemory>
    ensures moves { OnOk result (moves.new.items ≡ remove moves.old.items at) }
    ensures items { OnOk result (items.new.items ≡ items.old.items ++ move_done function.now sources.now labels.now saved (slice_get moves.old.items at)) }
{
    if at < moves.len() {
        let place = moves.remove(at);
        fetch_move(items, labels, function, sources, saved, place)?;
    }
    Ok(())
}

// The next move. The answer is what is saved from now on.
fn move_next(
    items: &mut Vec<Item>,
    labels: &Labels,
    function: &Source,
    sources: &[Source],
    saved: Option<u32>,
    moves: &mut Vec<u32>,
) -> Result<Option<u32>, NoMemory>
    ensures saved { IfOk result (λ s. s ≡ saved_next function.now sources.now saved moves.old.items) }
    ensures moves { OnOk result (moves.new.items ≡ left_next function.now sources.now saved moves.old.items) }
    ensures items { OnOk result (items.new.items ≡ items.old.items ++ next_moved function.now sources.now labels.now saved moves.old.items) }
{
    let next = first_free(function, sources, saved, moves.as_slice());
    let now = save(items, next, saved, moves.as_slice())?;
    do_move(items, labels, function, sources, now, moves, place_in(next))?;
    Ok(now)
}

fn moves_from(alloc: Global, count: u32) -> Result<Vec<u32>, NoMemory>
    ensures { IfOk result (λ moves. moves.items ≡ moves_from count 1) }
{
    let mut moves = Vec::new(alloc);
    for k in 0..count {
        moves.push(sum(k, 1)?)?;
    }
    moves.push(0)?;
    Ok(moves)
}

fn move_all(
    items: &mut Vec<Item>,
    labels: &Labels,
    function: &Source,
    sources: &[Source],
    count: u32,
) -> Result<(), NoMemory>
    requires { count ≡ length sources.now }
    ensures { OnOk result (items.new.items ≡ items.old.items ++ all_moved function.now sources.now labels.now (count + 1) None (moves_from count 1)) }
{
    let mut moves = moves_from(*items.allocator(), count)?;
    let mut saved = None;
    let mut left = sum(count, 1)?;
    while left > 0 {
        saved = move_next(items, labels, function, sources, saved, &mut moves)?;
        left -= 1;
    }
    Ok(())
}

/// Calls a function with itself and its arguments.
pub fn call(
    items: &mut Vec<Item>,
    labels: &Labels,
    target: Target,
    function: &Source,
    sources: &[Source],
) -> Result<(), NoMemory>
    ensures { OnOk result (items.new.items ≡ items.old.items ++ call labels.now target function.now sources.now) }
{
    move_all(items, labels, function, sources, count(sources)?)?;
    put_jump(items, target)
}
