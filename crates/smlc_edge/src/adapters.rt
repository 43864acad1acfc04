//! The standard streams and the file system. They tell no content and nothing sure: what a real stream or file does is not proved.

ghost use Rattle.std.specs.Prelude.{◌≡◌, List, ℕ, Option, None};

use crate::edge::{Failed, Sink, Source, Store, StoreError};
use std::alloc::Global;
use std::fs;
use std::io::{Read, Write};
use std::marker::Model;
use std::rt::Files;

/// A reader, with a count of its faults.
#[derive(Drop)]
pub struct StdSource<R: Read + Drop> {
    inner: R,
    faults: u64,
}

impl<R: Read + Drop> Model for StdSource<R> {
    ghost use Rattle.std.specs.Prelude.{ℕ};

    ghost Value = { ℕ };

    ghost view = { λ s. s.faults };
}

impl<R: Read + Drop> StdSource<R> {
    /// No fault was counted.
    pub fn new(inner: R) -> StdSource<R>
        ensures { result ≡ 0 }
    {
        StdSource { inner, faults: 0 }
    }
}

impl<R: Read + Drop> Source for StdSource<R> {
    ghost left = { λ s. None };

    ghost faults = { λ s. s };

    ghost sure = { λ s. ⊥ };

    fn faults(&self) -> u64 {
        self.faults
    }

    fn take(&mut self, into: &mut [u8]) -> Result<usize, Failed> {
        match self.inner.read(into) {
            Ok(count) => Ok(count),
            Err(_) => {
                self.faults = self.faults.saturating_add(1);
                Err(Failed)
            }
        }
    }
}

/// A writer, with a count of its faults.
#[derive(Drop)]
pub struct StdSink<W: Write + Drop> {
    inner: W,
    faults: u64,
}

impl<W: Write + Drop> Model for StdSink<W> {
    ghost use Rattle.std.specs.Prelude.{ℕ};

    ghost Value = { ℕ };

    ghost view = { λ s. s.faults };
}

impl<W: Write + Drop> StdSink<W> {
    /// No fault was counted.
    pub fn new(inner: W) -> StdSink<W>
        ensures { result ≡ 0 }
    {
        StdSink { inner, faults: 0 }
    }
}

impl<W: Write + Drop> Sink for StdSink<W> {
    ghost taken = { λ s. None };

    ghost faults = { λ s. s };

    ghost sure = { λ s. ⊥ };

    fn faults(&self) -> u64 {
        self.faults
    }

    fn put(&mut self, piece: &[u8]) -> Result<usize, Failed> {
        match self.inner.write(piece) {
            Ok(count) if count > 0 || piece.is_empty() => Ok(count),
            _ => {
                self.faults = self.faults.saturating_add(1);
                Err(Failed)
            }
        }
    }
}

/// The file system, with a count of its faults.
#[derive(Drop)]
pub struct FileStore<R: Files + Drop> {
    rt: R,
    faults: u64,
}

impl<R: Files + Drop> Model for FileStore<R> {
    ghost use Rattle.std.specs.Prelude.{ℕ};

    ghost Value = { ℕ };

    ghost view = { λ s. s.faults };
}

impl<R: Files + Drop> FileStore<R> {
    /// No fault was counted.
    pub fn new(rt: R) -> FileStore<R>
        ensures { result ≡ 0 }
    {
        FileStore { rt, faults: 0 }
    }
}

// The most bytes that are loaded.
const MOST: usize = 1 << 31;

// The bytes of a file, a piece at a time.
fn bytes_of<R: Files>(rt: &R, alloc: Global, name: &str) -> Result<Vec<u8>, StoreError> {
    let Ok(mut file) = fs::open(rt, name) else {
        return Err(StoreError::Failed);
    };
    let mut bytes = Vec::new(alloc);
    for _ in 0..u64::MAX {
        let mut piece = [0u8; 4096];
        let Ok(count) = file.read(&mut piece) else {
            return Err(StoreError::Failed);
        };
        if count == 0 {
            return Ok(bytes);
        }
        if bytes.len() + count > MOST {
            return Err(StoreError::Failed);
        }
        if bytes.extend_from_slice(&piece[..count]).is_err() {
            return Err(StoreError::NoMemory);
        }
    }
    Err(StoreError::Failed)
}

impl<R: Files + Drop> Store for FileStore<R> {
    ghost files = { λ s. None };

    ghost faults = { λ s. s };

    ghost surely_loads = { λ s name. ⊥ };

    ghost surely_saves = { λ s name n. ⊥ };

    fn faults(&self) -> u64 {
        self.faults
    }

    fn load(&mut self, alloc: Global, name: &str) -> Result<Vec<u8>, StoreError> {
        match bytes_of(&self.rt, alloc, name) {
            Ok(bytes) => Ok(bytes),
            Err(StoreError::NoMemory) => Err(StoreError::NoMemory),
            Err(StoreError::Failed) => {
                self.faults = self.faults.saturating_add(1);
                Err(StoreError::Failed)
            }
        }
    }

    fn save(&mut self, name: &str, bytes: &[u8]) -> Result<(), Failed> {
        match fs::write(&self.rt, name, bytes) {
            Ok(()) => Ok(()),
            Err(_) => {
                self.faults = self.faults.saturating_add(1);
                Err(Failed)
            }
        }
    }
}
