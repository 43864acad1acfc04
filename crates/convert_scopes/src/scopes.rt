//! Scopes make a tree: each but the empty one has one name more than another. A table has the atoms of the scope that is the present one, and to go to
//! another is to take names out of it and put others in, along the way between the two in the tree.

ghost use Rattle.std.specs.Prelude.{◌≡◌, ◌≢◌, ℕ, ◌+◌, ◌≤◌, ◌<◌, [], IfOk, OnOk, length};
ghost use Rattle.cps_ir.specs.declared.atom.Atom.{Atom};
ghost use Rattle.cps_ir.specs.State.{bind};
ghost use Rattle.convert_scopes.specs.Scopes.{IsScope, IsNext, Chain, nothing, atom_in, bound_of};

use cps_ir::{Atom, Constant};
use smlc_base::{Name, NoMemory, Row};
use std::alloc::Global;
use std::marker::Model;

/// A scope that has one name more than another.
#[derive(Clone, Copy)]
pub struct Bound {
    pub inside: u32,
    pub name: Name,
    pub atom: Atom,
    /// The atom of the name in the other scope.
    pub before: Atom,
}

/// All scopes that were made, by number, of which one is the present one. 0 is the empty one.
#[derive(Drop)]
pub struct Scopes {
    bounds: Row<Bound>,
    table: Row<Atom>,
    present: u32,
}

impl Model for Scopes {
    ghost use Rattle.convert_scopes.specs.Scopes.{Scopes as View, AreScopes};

    ghost Value = { View };

    ghost view = { λ s. record { bounds = s.bounds; table = s.table; present = s.present } };

    ghost invariant = { λ s. AreScopes (record { bounds = s.bounds; table = s.table; present = s.present }) };
}

fn nothing() -> Atom
    ensures { result ≡ nothing }
{
    Atom::Constant(Constant::Nothing)
}

fn atom_in(table: &[Atom], name: Name) -> Atom
    ensures { result ≡ atom_in table.now name.0 }
{
    match table.get(name.0 as usize) {
        Some(atom) => *atom,
        None => nothing(),
    }
}

// What a number stands for.
fn bound_of(bounds: &[Bound], scope: u32) -> Option<Bound>
    ensures { result ≡ bound_of bounds.now scope }
{
    if scope == 0 {
        return None;
    }
    match bounds.get(scope as usize - 1) {
        Some(bound) => Some(*bound),
        None => None,
    }
}

fn no_atoms(alloc: Global, names: usize) -> Result<Row<Atom>, NoMemory>
    ensures { IfOk result (λ r. (x : ℕ) → atom_in r x ≡ nothing) }
{
    let mut table = Row::new(alloc);
    for _ in 0..names {
        table.push(nothing())?;
    }
    Ok(table)
}

impl Scopes {
    /// The empty scope, for names below a bound.
    pub fn new(alloc: Global, names: usize) -> Result<Scopes, NoMemory>
        ensures { IfOk result (λ s. (s.present ≡ 0) × (s.bounds ≡ [])) }
    {
        let table = no_atoms(alloc, names)?;
        Ok(Scopes {
            bounds: Row::new(alloc),
            table,
            present: 0,
        })
    }

    /// The number of the present scope, of which the table has the atoms.
    pub fn present(&self) -> u32
        ensures number { result ≡ self.now.present }
        ensures here { (σ : ℕ → Atom) → IsScope self.now.bounds self.now.present σ → (x : ℕ) → atom_in self.now.table x ≡ σ x }
    {
        self.present
    }

    /// The atom of a name.
    pub fn get(&self, name: Name) -> Atom
        ensures table { result ≡ atom_in self.now.table name.0 }
        ensures scope { (σ : ℕ → Atom) → IsScope self.now.bounds self.now.present σ → result ≡ σ name.0 }
    {
        atom_in(self.table.items(), name)
    }

    /// The present scope becomes one with a name more.
    ///
    /// # Errors
    ///
    /// Want of memory, also where the name isn't below the bound.
    pub fn bind(&mut self, name: Name, atom: Atom) -> Result<(), NoMemory>
        ensures kept { OnOk result ((v : ℕ) (σ : ℕ → Atom) → IsScope self.old.bounds v σ → IsScope self.new.bounds v σ) }
        ensures bound { OnOk result ((σ : ℕ → Atom) → IsScope self.old.bounds self.old.present σ → IsScope self.new.bounds self.new.present (bind σ name.0 atom)) }
    {
        let at = name.0 as usize;
        if at >= self.table.len() {
            return Err(NoMemory);
        }
        if self.bounds.len() >= u32::MAX as usize {
            return Err(NoMemory);
        }
        let before = self.get(name);
        let inside = self.present;
        self.bounds.push(Bound {
            inside,
            name,
            atom,
            before,
        })?;
        self.table.set(at, atom);
        self.present = self.bounds.len() as u32;
        Ok(())
    }

    // Out of the present scope, where it isn't the empty one.
    fn leave(&mut self)
        requires { 1 ≤ self.old.present }
        ensures bounds { self.new.bounds ≡ self.old.bounds }
        ensures less { self.new.present < self.old.present }
    {
        if let Some(bound) = bound_of(self.bounds.items(), self.present) {
            self.table.set(bound.name.0 as usize, bound.before);
            self.present = bound.inside;
        }
    }

    // The scope that another, which isn't the empty one, has a name more than.
    fn inside(&self, scope: u32) -> u32
        requires one { 1 ≤ scope }
        requires stands { scope ≤ length self.now.bounds }
        ensures next { IsNext self.now.bounds result scope }
        ensures less { result < scope }
    {
        self.bounds.items()[scope as usize - 1].inside
    }

    // Into a scope that has one name more than the present one.
    fn enter(&mut self, next: u32)
        requires { IsNext self.old.bounds self.old.present next }
        ensures bounds { self.new.bounds ≡ self.old.bounds }
        ensures present { self.new.present ≡ next }
    {
        if let Some(bound) = bound_of(self.bounds.items(), next) {
            self.table.set(bound.name.0 as usize, bound.atom);
            self.present = next;
        }
    }

    // One step nearer to where the ways from the empty scope to the present one and to another part. Answers the scope that is then to be gone to.
    fn step(&mut self, entered: &mut Vec<u32>, to: u32) -> Result<u32, NoMemory>
        requires apart { self.old.present ≢ to }
        requires stands { to ≤ length self.old.bounds }
        ensures bounds { self.new.bounds ≡ self.old.bounds }
        ensures chain { IfOk result (λ next. (scope : ℕ) → Chain self.old.bounds scope entered.old.items to → Chain self.old.bounds scope entered.new.items next) }
        ensures less { IfOk result (λ next. next + self.new.present < to + self.old.present) }
        ensures next { IfOk result (λ next. next ≤ length self.old.bounds) }
    {
        if self.present > to {
            self.leave();
            return Ok(to);
        }
        let inside = self.inside(to);
        entered.push(to)?;
        Ok(inside)
    }

    // Out of the present scope, up to where the way to another begins. Leaves in a list which scopes are entered on that way, the last first.
    fn rise(&mut self, entered: &mut Vec<u32>, scope: u32) -> Result<(), NoMemory>
        requires none { entered.old.items ≡ [] }
        requires stands { scope ≤ length self.old.bounds }
        ensures bounds { self.new.bounds ≡ self.old.bounds }
        ensures chain { OnOk result (Chain self.old.bounds scope entered.new.items self.new.present) }
    {
        let mut to = scope;
        while self.present != to {
            to = self.step(entered, to)?;
        }
        Ok(())
    }

    // Into scopes one after another, the last first.
    fn descend(&mut self, entered: Vec<u32>, scope: u32)
        requires { Chain self.old.bounds scope entered.items self.old.present }
        ensures bounds { self.new.bounds ≡ self.old.bounds }
        ensures present { self.new.present ≡ scope }
    {
        let mut entered = entered;
        while let Some(next) = entered.pop() {
            self.enter(next);
        }
    }

    /// Another scope becomes the present one.
    ///
    /// # Errors
    ///
    /// Want of memory, also where there is no such scope.
    pub fn go(&mut self, scope: u32) -> Result<(), NoMemory>
        ensures bounds { self.new.bounds ≡ self.old.bounds }
        ensures present { OnOk result (self.new.present ≡ scope) }
    {
        if scope as usize > self.bounds.len() {
            return Err(NoMemory);
        }
        let mut entered = Vec::new(self.table.allocator());
        self.rise(&mut entered, scope)?;
        self.descend(entered, scope);
        Ok(())
    }
}
