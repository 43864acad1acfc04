//! Texts by number.

ghost use Rattle.std.specs.Prelude.{◌≡◌, [], ◌<◌, ◌^◌, length, slice_get, IfOk, OnOk, OnErr, IsTrue, ◌↔◌};
ghost use Rattle.smlc_base.specs.Texts.{with_text, AreDistinct};

use crate::memory::NoMemory;
use indexmap::IndexSet;
use std::alloc::Global;
use std::marker::Model;

/// The number of a text.
#[derive(Clone, Copy, PartialEq, Eq, PartialOrd, Ord, Debug)]
pub struct Name(pub u32);

/// Texts without doubles, in order of insertion. A name is the place of its text.
#[derive(Drop)]
pub struct Names {
    pub texts: IndexSet<Vec<u8>>,
}

impl Model for Names {
    ghost use Rattle.std.specs.Prelude.{List, ℕ, map};
    ghost use Rattle.smlc_base.specs.Texts.{AreDistinct};

    ghost Value = { List (List ℕ) };

    ghost view = { λ n. map (λ t. t.items) n.texts.keys };

    ghost invariant = { λ n. AreDistinct (map (λ t. t.items) n.texts.keys) };
}

impl Names {
    /// The empty list.
    pub fn new(alloc: Global) -> Names
        ensures { result ≡ [] }
    {
        Names {
            texts: IndexSet::new(alloc),
        }
    }

    /// The place of the text in the list, put last if new.
    pub fn add(&mut self, text: &[u8]) -> Result<Name, NoMemory>
        requires { length self.old < 2 ^ 32 }
        ensures place { IfOk result (λ name. slice_get self.new name.0 ≡ Some text.now) }
        ensures list { OnOk result (self.new ≡ with_text self.old text.now) }
        ensures distinct { AreDistinct self.new }
        ensures err { OnErr result (self.new ≡ self.old) }
    {
        let alloc = *self.texts.allocator();
        let copy = text.to_vec(alloc)?;
        let (at, _) = self.texts.insert_full(copy)?;
        Ok(Name(at as u32))
    }

    /// How many texts there are.
    pub fn len(&self) -> usize
        ensures len { result ≡ length self.now }
        ensures distinct { AreDistinct self.now }
    {
        self.texts.len()
    }

    /// Whether there is none.
    pub fn is_empty(&self) -> bool
        ensures { IsTrue result ↔ (self.now ≡ []) }
    {
        self.texts.is_empty()
    }

    /// The text of a name. Each text has one name.
    pub fn text(&self, name: Name) -> &[u8]
        requires { name.0 < length self.now }
        ensures text { slice_get self.now name.0 ≡ Some result.now }
        ensures distinct { AreDistinct self.now }
    {
        match self.texts.get_index(name.0 as usize) {
            Some(text) => text,
            None => unreachable!(),
        }
    }
}
