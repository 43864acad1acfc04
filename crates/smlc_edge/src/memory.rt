//! A source and a sink in memory. Their calls are counted from 1, and those that are listed fail.

ghost use Rattle.std.specs.Prelude.{◌≡◌, ◌≤◌, ◌+◌, ◌-◌, ◌<◌, [], ◌++◌, length, min, drop, take, List, ℕ, IsTrue, IsOk, IsErr, IfOk, OnOk, OnErr, Option, Some, is_err, ◌↔◌};
ghost use Rattle.smlc_edge.specs.Edge.{Counts, IsCut, Takes, Gains, part_of};
ghost use Rattle.smlc_edge.specs.Calls.{is_listed, is_clear, after_answer};
ghost use Rattle.smlc_edge.specs.Memory.{Supply, Intake, fails_put};

use crate::calls::Calls;
use crate::edge::{Failed, Sink, Source};
use smlc_base::NoMemory;
use std::alloc::Global;
use std::marker::Model;

/// Bytes in memory, of which some were taken.
#[derive(Debug, Drop)]
pub struct MemSource {
    bytes: Vec<u8>,
    at: usize,
    calls: Calls,
}

impl Model for MemSource {
    ghost use Rattle.std.specs.Prelude.{◌≤◌, drop, length};
    ghost use Rattle.smlc_edge.specs.Memory.{Supply};

    ghost Value = { Supply };

    ghost view = { λ s. record { left = drop s.at s.bytes.items; calls = s.calls } };

    ghost invariant = { λ s. s.at ≤ length s.bytes.items };
}

impl MemSource {
    /// A source of these bytes, whose calls of these numbers fail.
    pub fn new(bytes: Vec<u8>, failing: Vec<u64>) -> MemSource
        ensures { result ≡ record { left = bytes.items; calls = record { failing = failing; made = 0; faults = 0 } } }
    {
        MemSource {
            bytes,
            at: 0,
            calls: Calls::new(failing),
        }
    }
}

impl Source for MemSource {
    ghost left = { λ s. Some s.left };

    ghost faults = { λ s. s.calls.faults };

    ghost sure = { λ s. IsTrue (is_clear s.calls) };

    fn faults(&self) -> u64 {
        self.calls.faults
    }

    fn take(&mut self, into: &mut [u8]) -> Result<usize, Failed>
        ensures within { IfOk result (λ n. n ≤ length into.old) }
        ensures told { (bytes : List ℕ) → Some self.old.left ≡ Some bytes → Takes bytes into.old into.new result (Some self.new.left) }
        ensures cause { Counts self.old.calls.faults self.new.calls.faults result }
        ensures surely { IsTrue (is_clear self.old.calls) → IsOk result × IsTrue (is_clear self.new.calls) }

        // It fails exactly where its number is listed, and else moves as much as slice and bytes allow.
        ensures listed { is_err result ≡ is_listed self.old.calls }
        ensures calls { self.new.calls ≡ after_answer (is_err result) self.old.calls }
        ensures amount { IfOk result (λ n. n ≡ min (length into.old) (length self.old.left)) }
    {
        if self.calls.next() {
            return Err(self.calls.fail());
        }
        let count = into.len().min(self.bytes.len() - self.at);
        into[..count].copy_from_slice(&self.bytes[self.at..self.at + count]);
        self.at += count;
        Ok(count)
    }
}

/// Bytes that were taken, and the room left for more.
#[derive(Debug, Drop)]
pub struct MemSink {
    bytes: Vec<u8>,
    room: usize,
    calls: Calls,
}

impl Model for MemSink {
    ghost use Rattle.std.specs.Prelude.{◌≤◌, ◌+◌, vec_len, vec_capacity};
    ghost use Rattle.smlc_edge.specs.Memory.{Intake};

    ghost Value = { Intake };

    ghost view = { λ s. record { taken = s.bytes.items; room = s.room; calls = s.calls } };

    ghost invariant = { λ s. vec_len s.bytes + s.room ≤ vec_capacity s.bytes };
}

impl MemSink {
    /// A sink that took nothing and has no room, and whose calls of these numbers fail.
    pub fn new(alloc: Global, failing: Vec<u64>) -> MemSink
        ensures { result ≡ record { taken = []; room = 0; calls = record { failing = failing; made = 0; faults = 0 } } }
    {
        MemSink {
            bytes: Vec::new(alloc),
            room: 0,
            calls: Calls::new(failing),
        }
    }

    /// Adds so many bytes to the room left.
    pub fn reserve(&mut self, bytes: usize) -> Result<(), NoMemory>
        ensures ok { OnOk result (self.new ≡ record self.old { room = self.old.room + bytes }) }
        ensures err { OnErr result (self.new ≡ self.old) }
    {
        let Some(room) = self.room.checked_add(bytes) else {
            return Err(NoMemory);
        };
        self.bytes.reserve(room)?;
        self.room = room;
        Ok(())
    }

    /// The bytes taken.
    pub fn bytes(&self) -> &[u8]
        ensures { result.now ≡ self.now.taken }
    {
        &self.bytes
    }
}

impl Sink for MemSink {
    ghost taken = { λ s. Some s.taken };

    ghost faults = { λ s. s.calls.faults };

    ghost sure = { λ s. ⊥ };

    fn faults(&self) -> u64 {
        self.calls.faults
    }

    fn put(&mut self, piece: &[u8]) -> Result<usize, Failed>
        ensures within { IfOk result (λ n. IsCut n (length piece.now)) }
        ensures told { Gains (Some self.old.taken) (Some self.new.taken) (part_of piece.now result) }
        ensures cause { Counts self.old.calls.faults self.new.calls.faults result }

        // It fails exactly where its number is listed or the room doesn't suffice, and else takes the whole piece.
        ensures failed { is_err result ≡ fails_put self.old (length piece.now) }
        ensures calls { self.new.calls ≡ after_answer (is_err result) self.old.calls }
        ensures amount { IfOk result (λ n. n ≡ length piece.now) }
        ensures room { self.new.room ≡ self.old.room - length (part_of piece.now result) }
    {
        if self.calls.next() || piece.len() > self.room {
            return Err(self.calls.fail());
        }
        match self.bytes.extend_from_slice(piece) {
            Ok(()) => {
                self.room -= piece.len();
                Ok(piece.len())
            }
            Err(_) => unreachable!(),
        }
    }
}
