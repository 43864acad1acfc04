//! Sets of numbers below a bound.

ghost use Rattle.std.specs.Prelude.{◌≡◌, ◌<◌, ◌≤◌, ℕ, [], ◌∷◌, ◌++◌, length, slice_get, Some, IfOk};
ghost use Rattle.simulation.specs.Blocks.{IsAmong};
ghost use Rattle.heap_reach.specs.Numbers.{IsSet, Adds};

use smlc_base::NoMemory;
use std::alloc::Global;
use std::marker::Model;

/// Numbers below a bound, each at most once, in the order in which they came.
#[derive(Drop)]
pub struct NumberSet {
    marks: Vec<bool>,
    list: Vec<u32>,
    count: usize,
}

impl Model for NumberSet {
    ghost use Rattle.std.specs.Prelude.{take, length};
    ghost use Rattle.heap_reach.specs.Numbers.{Numbers, IsKept};

    ghost Value = { Numbers };

    ghost view = { λ n. record { room = length n.marks.items; numbers = take n.count n.list.items } };

    ghost invariant = { λ n. IsKept n.marks.items n.list.items n.count };
}

impl NumberSet {
    /// The empty set, with room for all numbers below the bound: one byte and four bytes for each.
    pub fn new(alloc: Global, room: u32) -> Result<NumberSet, NoMemory>
        ensures { IfOk result (λ n. n ≡ record { room = room; numbers = [] }) }
    {
        let mut marks = Vec::new(alloc);
        marks.resize(room as usize, false)?;
        let mut list = Vec::new(alloc);
        list.resize(room as usize, 0)?;
        Ok(NumberSet {
            marks,
            list,
            count: 0,
        })
    }

    /// The bound.
    pub fn room(&self) -> u32
        ensures { result ≡ self.now.room }
    {
        self.marks.len() as u32
    }

    /// How many numbers there are.
    pub fn len(&self) -> usize
        ensures length { result ≡ length self.now.numbers }
        ensures set { IsSet self.now }
    {
        self.count
    }

    /// The number at a place.
    pub fn at(&self, place: usize) -> u32
        requires { place < length self.now.numbers }
        ensures { slice_get self.now.numbers place ≡ Some result }
    {
        self.list[place]
    }

    /// Puts a number in, if it isn't there.
    pub fn add(&mut self, number: u32)
        requires { number < self.old.room }
        ensures room { self.new.room ≡ self.old.room }
        ensures adds { Adds (λ i. i ≡ number) self.old.numbers self.new.numbers }
    {
        if !self.marks[number as usize] {
            self.push(number);
        }
    }

    /// Puts a number last that isn't there.
    fn push(&mut self, number: u32)
        requires below { number < self.old.room }
        requires new { IsAmong number self.old.numbers → ⊥ }
        ensures { self.new ≡ record self.old { numbers = self.old.numbers ++ number ∷ [] } }
    {
        self.marks[number as usize] = true;
        self.list[self.count] = number;
        self.count += 1;
    }

    /// Takes the last number out.
    fn pop(&mut self)
        requires { 0 < length self.old.numbers }
        ensures room { self.new.room ≡ self.old.room }
        ensures fewer { length self.new.numbers < length self.old.numbers }
    {
        self.count -= 1;
        self.marks[self.list[self.count] as usize] = false;
    }

    /// Takes all numbers out, in a time that depends on how many there are, and not on the bound.
    pub fn clear(&mut self)
        ensures { self.new ≡ record self.old { numbers = [] } }
    {
        while self.count > 0 {
            self.pop();
        }
    }
}
