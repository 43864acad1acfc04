//! Scopes.

ghost use Rattle.std.specs.Prelude.{◌≡◌, ◌≤◌, ◌∷◌, [], length, IfOk, OnOk};
ghost use Rattle.close_scopes.specs.Scopes.{AreChained, link_at, bounds, looked_up, over, Grows};

use crate::found::Found;
use smlc_base::NoMemory;
use std::alloc::Global;
use std::marker::Model;

/// A variable or a class, by its number, and where it is found.
#[derive(Clone, Copy)]
pub struct Bound {
    pub key: u32,
    pub found: Found,
}

/// A binding, and the number of the one around it.
#[derive(Clone, Copy)]
pub struct Link {
    pub bound: Bound,
    pub outer: usize,
}

/// A scope, by the number of its innermost binding: they are counted from 1, and a scope without a binding has 0.
#[derive(Clone, Copy)]
pub struct Scope {
    pub innermost: usize,
}

/// The bindings of all scopes.
#[derive(Drop)]
pub struct Scopes {
    links: Vec<Link>,
}

impl Model for Scopes {
    ghost use Rattle.std.specs.Prelude.{List};
    ghost use Rattle.close_scopes.specs.declared.scopes.Link.{Link as Chained};
    ghost use Rattle.close_scopes.specs.Scopes.{AreChained};

    ghost Value = { List Chained };

    ghost view = { λ s. s.links.items };

    ghost invariant = { λ s. AreChained s.links.items };
}

impl Scope {
    /// The scope without a binding.
    pub fn empty() -> Scope
        ensures { result.innermost ≡ 0 }
    {
        Scope { innermost: 0 }
    }
}

impl Scopes {
    /// No bindings.
    pub fn new(alloc: Global) -> Scopes
        ensures { result ≡ [] }
    {
        Scopes {
            links: Vec::new(alloc),
        }
    }

    fn link(&self, number: usize) -> Option<Link>
        ensures link { result ≡ link_at self.now number }
        ensures chained { AreChained self.now }
    {
        if number > 0 {
            self.links.get(number - 1).copied()
        } else {
            None
        }
    }

    /// Where a variable or class is found in a scope, if it is bound there.
    pub fn find(&self, scope: Scope, key: u32) -> Option<Found>
        ensures { result ≡ looked_up (bounds self.now scope.innermost) key }
    {
        let mut number = scope.innermost;
        while let Some(link) = self.link(number) {
            if link.bound.key == key {
                return Some(link.bound.found);
            }
            number = link.outer;
        }
        None
    }

    /// The scope with one binding more.
    pub fn bind(&mut self, outer: Scope, bound: Bound) -> Result<Scope, NoMemory>
        requires { outer.innermost ≤ length self.old }
        ensures grown { OnOk result (Grows self.old self.new) }
        ensures stands { IfOk result (λ s. s.innermost ≤ length self.new) }
        ensures made { IfOk result (λ s. bounds self.new s.innermost ≡ bound ∷ bounds self.old outer.innermost) }
    {
        let outer = outer.innermost;
        self.links.push(Link { bound, outer })?;
        Ok(Scope {
            innermost: self.links.len(),
        })
    }

    /// The scope with all these bindings more, one within the other.
    pub fn bind_all(&mut self, outer: Scope, more: &[Bound]) -> Result<Scope, NoMemory>
        requires { outer.innermost ≤ length self.old }
        ensures grown { OnOk result (Grows self.old self.new) }
        ensures stands { IfOk result (λ s. s.innermost ≤ length self.new) }
        ensures made { IfOk result (λ s. bounds self.new s.innermost ≡ over more.now (bounds self.old outer.innermost)) }
    {
        let mut scope = outer;
        for bound in more {
            scope = self.bind(scope, *bound)?;
        }
        Ok(scope)
    }
}
