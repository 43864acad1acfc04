//! Bodies by number.

use crate::home::{Building, Home, Source};
use crate::test::Test;
use closure_ir::Target;
use smlc_base::{Primitive, Row};

/// What is done on the way to the end of a body.
#[derive(Drop)]
pub enum Step {
    /// New blocks, all in one step. The base is the address of the first.
    Make(Row<Building>),
    /// The home gets the address so many words behind the base.
    Name {
        home: Home,
        offset: u32,
    },
    /// The home gets a word that is read.
    Let {
        home: Home,
        value: Source,
    },
    /// The scratch register gets the result of a primitive, which may raise.
    Prim {
        primitive: Primitive,
        sources: Row<Source>,
    },
    /// The home gets what the scratch register has.
    Take(Home),
    /// The home gets the value of the handler register.
    Handler(Home),
    /// Sets the handler register.
    SetHandler(Source),
}

/// A rule of a match: where all tests hold, it goes on with the body of this number.
#[derive(Drop)]
pub struct Rule {
    pub tests: Row<Test>,
    pub body: u32,
}

/// How a body ends.
#[derive(Drop)]
pub enum End {
    /// Compares two values, and calls the continuation with `truth` where they are equal and with its opposite where they aren't.
    Equal {
        left: Source,
        right: Source,
        truth: bool,
        next: Source,
    },
    /// Calls a function with itself and its arguments.
    Call {
        target: Target,
        function: Source,
        sources: Row<Source>,
    },
    /// Goes on with the first rule all of whose tests hold, and else with the last body, by number.
    Match {
        subject: Source,
        rules: Row<Rule>,
        otherwise: u32,
    },
    /// Calls the function in the handler register with a packet.
    Throw(Source),
    /// The normal end.
    Halt,
}

/// A body: what is done in order, and the end.
#[derive(Drop)]
pub struct Body {
    pub steps: Row<Step>,
    pub end: End,
}

/// A function: its body by number, and the words of the spill record that it makes first, behind the header. Where these are 0 it makes none.
#[derive(Clone, Copy)]
pub struct Function {
    pub body: u32,
    pub frame: u32,
}
