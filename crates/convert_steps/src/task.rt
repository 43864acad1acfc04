//! What is left to be written, as data.

use cps_ir::Atom;
use sml_tree::bare::Con;
use smlc_base::{Primitive, Row};

/// What is done with a value: a function is called, or the text of a frame goes on, by its number.
#[derive(Clone, Copy)]
pub enum Continuation {
    Known(Atom),
    Text(u32),
}

/// What a frame does with the value that it awaits.
#[derive(Drop)]
pub enum Awaits {
    /// The program ends.
    End,
    /// The next part of a tuple comes to it, behind those that are there.
    Part {
        tuple: u32,
        before: Row<Atom>,
    },
    /// A function comes to it: then the argument is evaluated.
    Function {
        argument: u32,
    },
    /// An argument comes to it: the function is called.
    Argument {
        function: Atom,
    },
    /// The argument of a primitive.
    Builtin(Primitive),
    /// The argument of a constructor.
    Constructor(Con),
    /// The subject of a match.
    Subject {
        term: u32,
    },
    /// The packet that is raised.
    Packet,
    /// The right side of a binding of a declaration, in front of a body.
    Right {
        declaration: u32,
        at: u32,
        body: u32,
    },
}

/// A frame whose text is written where its value is there, in a scope, and in front of a continuation.
#[derive(Drop)]
pub struct Frame {
    pub awaits: Awaits,
    pub scope: u32,
    pub continuation: Continuation,
}

/// What is to be written.
#[derive(Clone, Copy)]
pub enum Work {
    /// A term.
    Term(u32),
    /// The continuation gets an atom.
    Give(Atom),
    /// A rule of a term that was chosen for a subject.
    Rule {
        term: u32,
        at: u32,
        subject: Atom,
    },
    /// The rules of a term for a subject; where none is chosen, an atom is thrown.
    Rules {
        term: u32,
        subject: Atom,
        thrown: Atom,
    },
    /// The function of a `handle` that catches packets; the old handler is the next variable but five.
    Caught {
        term: u32,
    },
    /// The function of a `handle` to which a value comes back.
    Popped,
    Throw(Atom),
    /// The names of a binding whose tests hold, and what is behind it.
    Bound {
        declaration: u32,
        at: u32,
        body: u32,
        subject: Atom,
    },
    /// The bindings of a declaration from one on, and the body.
    Bindings {
        declaration: u32,
        at: u32,
        body: u32,
    },
}

/// What is to be written, in a scope, in front of a continuation, with variables from a number on.
#[derive(Clone, Copy)]
pub struct Task {
    pub work: Work,
    pub scope: u32,
    pub continuation: Continuation,
    pub next: u32,
}

/// How a body goes on: with more to be written, or with its end.
#[derive(Drop)]
pub enum Step {
    Go(Task),
    Stop(cps_ir::End),
}
