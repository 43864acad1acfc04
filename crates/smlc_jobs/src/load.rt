//! Loads files in order.

ghost use Rattle.std.specs.Prelude.{◌≡◌, List, ℕ, All, map, false};
ghost use Rattle.smlc_jobs.specs.Load.{IsLoaded, is_fault};

use smlc_edge::{Store, StoreError};
use std::alloc::Global;

/// What became of the loads of files.
#[derive(Drop)]
pub enum Loaded {
    /// The bytes of each file, in order.
    Files(Vec<Vec<u8>>),
    /// The file of this number, counted from 0, wasn't loaded.
    Failed(usize),
    /// Memory was wanting.
    NoMemory,
}

/// Loads the files of these names in order, up to the first that isn't loaded.
pub fn load_all<F: Store>(alloc: Global, names: &[&str], store: &mut F) -> Loaded
    ensures loaded { IsLoaded (map (λ name. name.now) names.now) (F.files store.old) (F.files store.new) (F.faults store.old) (F.faults store.new) result }
    ensures surely { All (F.surely_loads store.old) (map (λ name. name.now) names.now) → is_fault result ≡ false }
    ensures saves_kept { (other : List ℕ) (n : ℕ) → F.surely_saves store.old other n → F.surely_saves store.new other n }
{
    let mut files = Vec::new(alloc);
    for i in 0..names.len() {
        match store.load(alloc, names[i]) {
            Ok(file) => match files.push(file) {
                Ok(()) => {}
                Err(_) => return Loaded::NoMemory,
            },
            Err(StoreError::NoMemory) => return Loaded::NoMemory,
            Err(StoreError::Failed) => return Loaded::Failed(i),
        }
    }
    Loaded::Files(files)
}
