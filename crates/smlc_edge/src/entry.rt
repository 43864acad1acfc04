//! An entry of a store in memory: a name, its bytes if it has any, and the room for a later save.

ghost use Rattle.std.specs.Prelude.{◌≡◌, ◌≤◌, [], length, vec_capacity};

use smlc_base::NoMemory;
use std::alloc::Global;

/// Room for so many bytes.
#[derive(Debug, Drop)]
pub struct Room {
    pub bytes: Vec<u8>,
    pub most: usize,
    ghost empty: { bytes.items ≡ [] },
    ghost wide: { most ≤ vec_capacity bytes },
}

impl Room {
    ghost use Rattle.std.specs.Prelude.{◌≡◌, ◌≤◌, length, IfOk};

    /// Room for so many bytes.
    pub fn new(alloc: Global, most: usize) -> Result<Room, NoMemory>
        ensures { IfOk result (λ room. room.most ≡ most) }
    {
        let bytes = Vec::with_capacity(alloc, most)?;
        Ok(Room { bytes, most })
    }

    /// Fills the room with bytes.
    fn filled(self, bytes: &[u8]) -> Vec<u8>
        requires { length bytes.now ≤ self.most }
        ensures { result.items ≡ bytes.now }
    {
        let mut held = self.bytes;
        match held.extend_from_slice(bytes) {
            Ok(()) => held,
            Err(_) => unreachable!(),
        }
    }
}

/// A name, its bytes, and the room for a later save.
#[derive(Debug, Drop)]
pub struct Entry {
    pub name: Vec<u8>,
    pub held: Option<Vec<u8>>,
    pub room: Option<Room>,
}

impl Entry {
    ghost use Rattle.std.specs.Prelude.{◌≡◌, IfOk, Some, None, length, if◌then◌else◌};
    ghost use Rattle.smlc_edge.specs.Shelf.{held_by, room_by, suffices, widened};

    /// A name without bytes and without room.
    pub fn new(alloc: Global, name: &[u8]) -> Result<Entry, NoMemory>
        ensures { IfOk result (λ entry. (entry.name.items ≡ name.now) × (entry.held ≡ None) × (entry.room ≡ None)) }
    {
        let name = name.to_vec(alloc)?;
        Ok(Entry {
            name,
            held: None,
            room: None,
        })
    }

    /// Takes the room for one save, unless there is as much already.
    pub fn widen(&mut self, room: Room)
        ensures name { self.new.name.items ≡ self.old.name.items }
        ensures held { held_by self.new ≡ held_by self.old }
        ensures room { room_by self.new ≡ Some (widened room.most (room_by self.old)) }
    {
        match &self.room {
            Some(had) if room.most <= had.most => {}
            _ => self.room = Some(room),
        }
    }

    /// Holds these bytes, if there is room for them, which is used up then.
    pub fn save(&mut self, bytes: &[u8]) -> bool
        ensures name { self.new.name.items ≡ self.old.name.items }
        ensures done { result ≡ suffices (length bytes.now) (room_by self.old) }
        ensures held { held_by self.new ≡ (if result then Some bytes.now else held_by self.old) }
        ensures room { room_by self.new ≡ (if result then None else room_by self.old) }
    {
        match self.room.take() {
            Some(room) if bytes.len() <= room.most => {
                self.held = Some(room.filled(bytes));
                true
            }
            other => {
                self.room = other;
                false
            }
        }
    }
}
