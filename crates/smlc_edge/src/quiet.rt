//! A source and a sink that never fail.

ghost use Rattle.std.specs.Prelude.{◌≡◌, ◌≤◌, ◌+◌, ◌++◌, drop, take, length, min, List, ℕ, IsOk, IfOk, Option, Some, None, [], false, if◌then◌else◌};
ghost use Rattle.smlc_edge.specs.Edge.{Counts, IsCut, Takes, Gains, part_of};

use crate::edge::{Failed, Sink, Source};
use std::marker::Model;

/// Bytes in memory, of which some were taken.
#[derive(Debug, Drop)]
pub struct QuietSource {
    bytes: Vec<u8>,
    at: usize,
}

impl Model for QuietSource {
    ghost use Rattle.std.specs.Prelude.{List, ℕ, ◌≤◌, drop, length};

    ghost Value = { List ℕ };

    ghost view = { λ s. drop s.at s.bytes.items };

    ghost invariant = { λ s. s.at ≤ length s.bytes.items };
}

impl QuietSource {
    /// A source of these bytes.
    pub fn new(bytes: Vec<u8>) -> QuietSource
        ensures { result ≡ bytes.items }
    {
        QuietSource { bytes, at: 0 }
    }
}

impl Source for QuietSource {
    ghost left = { λ s. Some s };

    ghost faults = { λ s. 0 };

    ghost sure = { λ s. Unit {0} };

    fn faults(&self) -> u64 {
        0
    }

    fn take(&mut self, into: &mut [u8]) -> Result<usize, Failed>
        ensures within { IfOk result (λ n. n ≤ length into.old) }
        ensures told { (bytes : List ℕ) → Some self.old ≡ Some bytes → Takes bytes into.old into.new result (Some self.new) }
        ensures cause { Counts 0 0 result }
        ensures surely { Unit {0} → IsOk result × Unit {0} }

        // It moves as much as slice and bytes allow.
        ensures ok { IsOk result }
        ensures amount { IfOk result (λ n. n ≡ min (length into.old) (length self.old)) }
    {
        let count = into.len().min(self.bytes.len() - self.at);
        into[..count].copy_from_slice(&self.bytes[self.at..self.at + count]);
        self.at += count;
        Ok(count)
    }
}

const KEPT: usize = 4096;

/// The first 4,096 bytes that were taken. It tells what was taken while that is no more.
#[derive(Drop)]
pub struct QuietSink {
    kept: [u8; 4096],
    len: usize,
    full: bool,
}

impl Model for QuietSink {
    ghost use Rattle.std.specs.Prelude.{List, ℕ, ◌≤◌, take, Option, Some, None, if◌then◌else◌};

    ghost Value = { Option (List ℕ) };

    ghost view = { λ s. if s.full then None else Some (take s.len s.kept) };

    ghost invariant = { λ s. s.len ≤ 4096 };
}

impl QuietSink {
    /// A sink that took nothing.
    pub fn new() -> QuietSink
        ensures { result ≡ Some [] }
    {
        QuietSink {
            kept: [0; 4096],
            len: 0,
            full: false,
        }
    }
}

impl Sink for QuietSink {
    ghost taken = { λ s. s };

    ghost faults = { λ s. 0 };

    ghost sure = { λ s. Unit {0} };

    fn faults(&self) -> u64 {
        0
    }

    fn put(&mut self, piece: &[u8]) -> Result<usize, Failed>
        ensures within { IfOk result (λ n. IsCut n (length piece.now)) }
        ensures told { Gains self.old self.new (part_of piece.now result) }
        ensures cause { Counts 0 0 result }
        ensures surely { Unit {0} → IsOk result × Unit {0} }

        // It takes the whole piece, and tells what it took while that is no more than it keeps.
        ensures ok { IsOk result }
        ensures amount { IfOk result (λ n. n ≡ length piece.now) }
        ensures tells { (bytes : List ℕ) → self.old ≡ Some bytes → length bytes + length piece.now ≤ KEPT → self.new ≡ Some (bytes ++ piece.now) }
    {
        let count = piece.len().min(KEPT - self.len);
        self.kept[self.len..self.len + count].copy_from_slice(&piece[..count]);
        self.len += count;
        if count < piece.len() {
            self.full = true;
        }
        Ok(piece.len())
    }
}
