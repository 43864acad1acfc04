//! A store in memory. Its calls are counted from 1, and those that are listed fail.

ghost use Rattle.std.specs.Prelude.{◌≡◌, ◌≢◌, ◌≤◌, ◌<◌, [], List, ℕ, length, IsTrue, IsOk, IfOk, IfSome, IfNone, OnOk, OnErr, Option, Some, None, IsSome, is_some, is_err, not, ◌||◌, option_copied, if◌then◌else◌};
ghost use Rattle.smlc_edge.specs.Edge.{Counts, Files, LoadCounts, IsNotFailed, Saves, is_failed};
ghost use Rattle.smlc_edge.specs.Calls.{is_listed, is_clear, after_answer};
ghost use Rattle.smlc_edge.specs.Shelf.{Shelf, entry_of, file_of, room_of, place_of, suffices, widened, changed};

use crate::calls::Calls;
use crate::edge::{Failed, Store, StoreError};
use crate::entry::{Entry, Room};
use smlc_base::NoMemory;
use std::alloc::Global;
use std::marker::Model;

/// Bytes by name, in memory.
#[derive(Debug, Drop)]
pub struct MemStore {
    entries: Vec<Entry>,
    calls: Calls,
}

impl Model for MemStore {
    ghost use Rattle.smlc_edge.specs.Shelf.{Shelf};

    ghost Value = { Shelf };

    ghost view = { λ s. record { entries = s.entries.items; calls = s.calls } };
}

impl MemStore {
    /// A store of no name, whose calls of these numbers fail. Loads and saves are counted together.
    pub fn new(alloc: Global, failing: Vec<u64>) -> MemStore
        ensures { result ≡ record { entries = []; calls = record { failing = failing; made = 0; faults = 0 } } }
    {
        MemStore {
            entries: Vec::new(alloc),
            calls: Calls::new(failing),
        }
    }

    /// Sets a name's bytes.
    pub fn add(&mut self, name: &str, bytes: &[u8]) -> Result<(), NoMemory>
        ensures files { OnOk result ((other : List ℕ) → file_of self.new.entries other ≡ changed (file_of self.old.entries) name.now (Some bytes.now) other) }
        ensures rooms { OnOk result ((other : List ℕ) → room_of self.new.entries other ≡ room_of self.old.entries other) }
        ensures calls { self.new.calls ≡ self.old.calls }
        ensures err { OnErr result (self.new ≡ self.old) }
    {
        let alloc = *self.entries.allocator();
        let bytes = bytes.to_vec(alloc)?;
        let at = place(&mut self.entries, name.as_bytes())?;
        self.entries[at].held = Some(bytes);
        Ok(())
    }

    /// Makes room for one later save of the name of at most so many bytes.
    /// Where the name has room already, it becomes the greater of the two, still for one save.
    pub fn reserve(&mut self, name: &str, bytes: usize) -> Result<(), NoMemory>
        ensures files { OnOk result ((other : List ℕ) → file_of self.new.entries other ≡ file_of self.old.entries other) }
        ensures rooms { OnOk result ((other : List ℕ) → room_of self.new.entries other ≡ changed (room_of self.old.entries) name.now (Some (widened bytes (room_of self.old.entries name.now))) other) }
        ensures calls { self.new.calls ≡ self.old.calls }
        ensures err { OnErr result (self.new ≡ self.old) }
    {
        let room = Room::new(*self.entries.allocator(), bytes)?;
        let at = place(&mut self.entries, name.as_bytes())?;
        self.entries[at].widen(room);
        Ok(())
    }
}

// The place of a name's entry.
fn found(entries: &[Entry], name: &[u8]) -> Option<usize>
    ensures { result ≡ place_of name.now entries.now }
{
    entries
        .iter()
        .position(|entry| entry.name.as_slice() == name)
}

// The place of a name's entry, which is made if there is none.
fn place(entries: &mut Vec<Entry>, name: &[u8]) -> Result<usize, NoMemory>
    ensures place { IfOk result (λ at. place_of name.now entries.new.items ≡ Some at) }
    ensures within { IfOk result (λ at. at < length entries.new.items) }
    ensures files { OnOk result ((other : List ℕ) → file_of entries.new.items other ≡ file_of entries.old.items other) }
    ensures rooms { OnOk result ((other : List ℕ) → room_of entries.new.items other ≡ room_of entries.old.items other) }
    ensures err { OnErr result (entries.new.items ≡ entries.old.items) }
{
    match found(entries, name) {
        Some(at) => Ok(at),
        None => add_entry(entries, name),
    }
}

fn add_entry(entries: &mut Vec<Entry>, name: &[u8]) -> Result<usize, NoMemory>
    requires { place_of name.now entries.old.items ≡ None }
    ensures place { IfOk result (λ at. place_of name.now entries.new.items ≡ Some at) }
    ensures within { IfOk result (λ at. at < length entries.new.items) }
    ensures files { OnOk result ((other : List ℕ) → file_of entries.new.items other ≡ file_of entries.old.items other) }
    ensures rooms { OnOk result ((other : List ℕ) → room_of entries.new.items other ≡ room_of entries.old.items other) }
    ensures err { OnErr result (entries.new.items ≡ entries.old.items) }
{
    let entry = Entry::new(*entries.allocator(), name)?;
    let at = entries.len();
    entries.push(entry)?;
    Ok(at)
}

impl Store for MemStore {
    ghost files = { λ s. Some (file_of s.entries) };

    ghost faults = { λ s. s.calls.faults };

    ghost surely_loads = { λ s name. IsTrue (is_clear s.calls) × IsSome (file_of s.entries name) };

    ghost surely_saves = { λ s name n. IsTrue (is_clear s.calls) × IsTrue (suffices n (room_of s.entries name)) };

    fn faults(&self) -> u64 {
        self.calls.faults
    }

    fn load(&mut self, alloc: Global, name: &str) -> Result<Vec<u8>, StoreError>
        ensures told { (held : Files) → Some (file_of self.old.entries) ≡ Some held → IfOk result (λ bytes. held name.now ≡ Some bytes.items) }
        ensures kept { (held : Files) → Some (file_of self.old.entries) ≡ Some held → Some (file_of self.new.entries) ≡ Some held }
        ensures cause { LoadCounts self.old.calls.faults self.new.calls.faults result }
        ensures surely { IsTrue (is_clear self.old.calls) × IsSome (file_of self.old.entries name.now) → IsNotFailed result }
        ensures loads_kept { (other : List ℕ) → IsTrue (is_clear self.old.calls) × IsSome (file_of self.old.entries other) → IsTrue (is_clear self.new.calls) × IsSome (file_of self.new.entries other) }
        ensures saves_kept { (other : List ℕ) (n : ℕ) → IsTrue (is_clear self.old.calls) × IsTrue (suffices n (room_of self.old.entries other)) → IsTrue (is_clear self.new.calls) × IsTrue (suffices n (room_of self.new.entries other)) }

        // It fails exactly where its number is listed or the name is absent, and changes nothing but its counts.
        ensures failed { is_failed result ≡ (is_listed self.old.calls || not (is_some (file_of self.old.entries name.now))) }
        ensures calls { self.new ≡ record self.old { calls = after_answer (is_failed result) self.old.calls } }
    {
        if self.calls.next() {
            let _ = self.calls.fail();
            return Err(StoreError::Failed);
        }
        match held(&self.entries, name.as_bytes()) {
            Some(bytes) => match bytes.to_vec(alloc) {
                Ok(copy) => Ok(copy),
                Err(_) => Err(StoreError::NoMemory),
            },
            None => {
                let _ = self.calls.fail();
                Err(StoreError::Failed)
            }
        }
    }

    fn save(&mut self, name: &str, bytes: &[u8]) -> Result<(), Failed>
        ensures told { (before : Files) → Some (file_of self.old.entries) ≡ Some before → Saves before name.now bytes.now result (Some (file_of self.new.entries)) }
        ensures cause { Counts self.old.calls.faults self.new.calls.faults result }
        ensures surely { (n : ℕ) → IsTrue (is_clear self.old.calls) × IsTrue (suffices n (room_of self.old.entries name.now)) → length bytes.now ≤ n → IsOk result }
        ensures loads_kept { (other : List ℕ) → other ≢ name.now → IsTrue (is_clear self.old.calls) × IsSome (file_of self.old.entries other) → IsTrue (is_clear self.new.calls) × IsSome (file_of self.new.entries other) }
        ensures saves_kept { (other : List ℕ) (n : ℕ) → other ≢ name.now → IsTrue (is_clear self.old.calls) × IsTrue (suffices n (room_of self.old.entries other)) → IsTrue (is_clear self.new.calls) × IsTrue (suffices n (room_of self.new.entries other)) }

        // It fails exactly where its number is listed or the room doesn't suffice. What is saved uses the room up.
        ensures failed { is_err result ≡ (is_listed self.old.calls || not (suffices (length bytes.now) (room_of self.old.entries name.now))) }
        ensures calls { self.new.calls ≡ after_answer (is_err result) self.old.calls }
        ensures files { (other : List ℕ) → file_of self.new.entries other ≡ (if is_err result then file_of self.old.entries other else changed (file_of self.old.entries) name.now (Some bytes.now) other) }
        ensures rooms { (other : List ℕ) → room_of self.new.entries other ≡ (if is_err result then room_of self.old.entries other else changed (room_of self.old.entries) name.now None other) }
    {
        if self.calls.next() || !put(&mut self.entries, name.as_bytes(), bytes) {
            return Err(self.calls.fail());
        }
        Ok(())
    }
}

// The bytes of a name.
fn held<'a>(entries: &'a [Entry], name: &[u8]) -> Option<&'a Vec<u8>>
    ensures some { IfSome result (λ bytes. file_of entries.now name.now ≡ Some bytes.now.items) }
    ensures none { IfNone result (file_of entries.now name.now ≡ None) }
{
    match entry(entries, name) {
        Some(entry) => entry.held.as_ref(),
        None => None,
    }
}

fn entry<'a>(entries: &'a [Entry], name: &[u8]) -> Option<&'a Entry>
    ensures { option_copied result ≡ entry_of entries.now name.now }
{
    entries.iter().find(|entry| entry.name.as_slice() == name)
}

// Puts bytes under a name, if there is room for them.
fn put(entries: &mut Vec<Entry>, name: &[u8], bytes: &[u8]) -> bool
    ensures done { result ≡ suffices (length bytes.now) (room_of entries.old.items name.now) }
    ensures files { (other : List ℕ) → file_of entries.new.items other ≡ (if result then changed (file_of entries.old.items) name.now (Some bytes.now) other else file_of entries.old.items other) }
    ensures rooms { (other : List ℕ) → room_of entries.new.items other ≡ (if result then changed (room_of entries.old.items) name.now None other else room_of entries.old.items other) }
{
    match found(entries, name) {
        Some(at) => entries[at].save(bytes),
        None => false,
    }
}
