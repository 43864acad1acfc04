//! Bodies by number.

use crate::atom::{Atom, Shape, Test, Variable};
use smlc_base::{Point, Primitive, Row};

/// A function: its name, the point at which it is entered, its parameters, and its body by number. The last argument of a call is the continuation.
#[derive(Drop)]
pub struct Function {
    pub name: Variable,
    pub point: Point,
    pub params: Row<Variable>,
    pub body: u32,
}

/// What is done on the way to the end of a body.
#[derive(Drop)]
pub enum Bind {
    /// A new block.
    Make {
        var: Variable,
        shape: Shape,
        atoms: Row<Atom>,
    },
    /// A field of a block, counted from 0 behind the header.
    Pick {
        var: Variable,
        field: u32,
        of: Atom,
    },
    /// The result of a primitive, which may raise.
    Prim {
        var: Variable,
        primitive: Primitive,
        atoms: Row<Atom>,
    },
    /// Functions that may name one another.
    Fix(Row<Function>),
    /// The value of the handler register.
    Handler(Variable),
    /// Sets the handler register.
    SetHandler(Atom),
}

/// A rule of a match: where all tests hold, it goes on with the body of this number.
#[derive(Drop)]
pub struct Rule {
    pub tests: Row<Test>,
    pub body: u32,
}

/// How a body ends.
#[derive(Drop)]
pub enum End {
    /// Compares two values, and calls the continuation with `truth` where they are equal and with its opposite where they aren't.
    Equal {
        left: Atom,
        right: Atom,
        truth: bool,
        next: Atom,
    },
    Call {
        function: Atom,
        atoms: Row<Atom>,
    },
    /// Goes on with the first rule all of whose tests hold, and else with the last body, by number.
    Match {
        subject: Atom,
        rules: Row<Rule>,
        otherwise: u32,
    },
    /// Calls the function in the handler register with a packet.
    Throw(Atom),
    /// The normal end.
    Halt,
}

/// A body: what is done in order, and the end.
#[derive(Drop)]
pub struct Body {
    pub binds: Row<Bind>,
    pub end: End,
}
