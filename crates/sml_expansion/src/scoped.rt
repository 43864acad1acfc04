//! What is bound to numbers, with a log of what each binding hides.

ghost use Rattle.std.specs.Prelude.{◌≡◌, ◌<◌, ◌^◌, ◌-◌, ◌∷◌, ◌++◌, [], ℕ, None, IfOk, OnOk, OnErr, length, drop, take, reverse, replicate};
ghost use Rattle.sml_expansion.specs.Scoped.{latest, oldest};

use smlc_base::NoMemory;
use std::alloc::Global;
use std::marker::Model;

/// Bindings of numbers, the latest first. A binding is taken back by what it hides, so a scope costs as much as it binds.
#[derive(Drop)]
pub struct Scoped<T> {
    /// Each binding with what it hides.
    log: Vec<(u32, T, Option<T>)>,
    /// What each number stands for.
    meanings: Vec<Option<T>>,
}

impl<T> Model for Scoped<T> {
    ghost use Rattle.std.specs.Prelude.{List, ℕ};

    ghost Value = { List (ℕ × T) };

    ghost use Rattle.sml_expansion.specs.Scoped.{bound, Stands};

    ghost view = { λ s. bound s.log.items };

    ghost invariant = { λ s. Stands s.meanings.items s.log.items };
}

impl<T: Copy> Scoped<T> {
    /// Nothing is bound.
    pub fn new(alloc: Global) -> Scoped<T>
        ensures { result ≡ [] }
    {
        Scoped {
            log: Vec::new(alloc),
            meanings: Vec::new(alloc),
        }
    }

    /// What a number stands for.
    pub fn get(&self, key: u32) -> Option<T>
        ensures { result ≡ latest self.now key }
    {
        match self.meanings.get(key as usize) {
            Some(meaning) => *meaning,
            None => None,
        }
    }

    /// How many bindings stand.
    pub fn len(&self) -> usize
        ensures { result ≡ length self.now }
    {
        self.log.len()
    }

    /// Binds a number. After want of memory nothing has changed.
    pub fn bind(&mut self, key: u32, meaning: T) -> Result<(), NoMemory>
        ensures ok { OnOk result (self.new ≡ (key, meaning) ∷ self.old) }
        ensures err { OnErr result (self.new ≡ self.old) }
    {
        let at = key as usize;
        make_room(&mut self.meanings, at)?;
        let hides = self.meanings[at];
        self.log.push((key, meaning, hides))?;
        self.meanings[at] = Some(meaning);
        Ok(())
    }

    /// Takes back the last binding.
    fn undo(&mut self)
        ensures { self.new ≡ drop 1 self.old }
    {
        if let Some((key, _, hides)) = self.log.pop() {
            if let Some(meaning) = self.meanings.get_mut(key as usize) {
                *meaning = hides;
            }
        }
    }

    /// Takes back all bindings but the first so many.
    pub fn undo_to(&mut self, bindings: usize)
        ensures { self.new ≡ oldest bindings self.old }
    {
        while self.len() > bindings {
            self.undo();
        }
    }

    /// Takes back the bindings from one number of them to another, and keeps those behind.
    pub fn cut(&mut self, from: usize, to: usize) -> Result<(), NoMemory>
        ensures { OnOk result (self.new ≡ take (length self.old - to) self.old ++ oldest from self.old) }
    {
        let newer = self.behind(to)?;
        self.undo_to(from);
        for (key, meaning) in newer {
            self.bind(key, meaning)?;
        }
        Ok(())
    }

    /// The bindings behind so many, in the order in which they were bound.
    fn behind(&self, count: usize) -> Result<Vec<(u32, T)>, NoMemory>
        ensures { IfOk result (λ newer. newer.items ≡ reverse (take (length self.now - count) self.now)) }
    {
        let mut newer = Vec::new(*self.log.allocator());
        for at in count..self.log.len() {
            let (key, meaning, _) = self.log[at];
            newer.push((key, meaning))?;
        }
        Ok(newer)
    }
}

/// A table that has a place of this number.
fn make_room<T: Copy>(meanings: &mut Vec<Option<T>>, at: usize) -> Result<(), NoMemory>
    requires { at < 2 ^ 32 }
    ensures longer { (n : ℕ) × (meanings.new.items ≡ meanings.old.items ++ replicate n None) }
    ensures room { OnOk result (at < length meanings.new.items) }
{
    if at >= meanings.len() {
        meanings.resize(2 * at + 1, None)?;
    }
    Ok(())
}
