//! Functions and bindings.

ghost use Rattle.std.specs.Prelude.{◌≡◌};
ghost use Rattle.cps_survey.specs.Steps.{layout};
ghost use Rattle.lifetime_users.specs.Users.{binding};

use smlc_base::{Point, Row};
use std::marker::Model;

/// A function: its name, its point, and its free variables in ascending order.
#[derive(Drop)]
pub struct Layout {
    name: u32,
    point: Point,
    free: Row<u32>,
}

impl Model for Layout {
    ghost use Rattle.cps_ir.specs.Slim.{Layout as Held};

    ghost Value = { Held };

    ghost view = { λ l. record { name = l.name; point = l.point; free = l.free } };
}

impl Layout {
    /// A function of this name and point with these free variables.
    pub fn new(name: u32, point: Point, free: Row<u32>) -> Layout
        ensures { result ≡ layout name point free }
    {
        Layout { name, point, free }
    }

    /// Its name.
    pub fn name(&self) -> u32
        ensures { result ≡ self.now.name }
    {
        self.name
    }

    /// Its point.
    pub fn point(&self) -> Point
        ensures { result ≡ self.now.point }
    {
        self.point
    }

    /// Its free variables.
    pub fn free(&self) -> &[u32]
        ensures { result.now ≡ self.now.free }
    {
        self.free.items()
    }
}

/// A variable that no function binding names, and the function in whose body it is bound; the body of the whole has none.
#[derive(Drop)]
pub struct Binding {
    var: u32,
    home: Option<u32>,
}

impl Model for Binding {
    ghost use Rattle.lifetime_users.specs.Users.{Binding as Bound};

    ghost Value = { Bound };

    ghost view = { λ b. record { var = b.var; home = b.home } };
}

impl Binding {
    /// A variable that is bound in the body of this function.
    pub fn new(var: u32, home: Option<u32>) -> Binding
        ensures { result ≡ binding home var }
    {
        Binding { var, home }
    }

    /// The variable.
    pub fn var(&self) -> u32
        ensures { result ≡ self.now.var }
    {
        self.var
    }

    /// The function, if there is one.
    pub fn home(&self) -> Option<u32>
        ensures { result ≡ self.now.home }
    {
        self.home
    }
}
