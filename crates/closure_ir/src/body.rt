//! Bodies by number.

use crate::operand::{Operand, Shape, Variable};
use smlc_base::{Label, Path, Primitive, Row, Tag};

/// A block that is made, and the variable that it is bound to.
#[derive(Drop)]
pub struct Maker {
    pub var: Variable,
    pub shape: Shape,
    pub fields: Row<Operand>,
}

/// What is done on the way to the end of a body.
#[derive(Drop)]
pub enum Bind {
    /// New blocks, all in one step: one datum, or class records and the closures of a group.
    Make(Row<Maker>),
    /// A word that is read.
    Let {
        var: Variable,
        value: Operand,
    },
    /// The result of a primitive, which may raise.
    Prim {
        var: Variable,
        primitive: Primitive,
        operands: Row<Operand>,
    },
    /// The value of the handler register.
    Handler(Variable),
    /// Sets the handler register.
    SetHandler(Operand),
}

/// What a test wants of a value.
#[derive(Drop)]
pub enum Wanted {
    /// This int, or the character of this code.
    Num(i64),
    /// A value of this constructor.
    Tag(Tag),
    /// The string constant of this number.
    Text(u32),
    /// The exception name that the operand has: as that of a packet with an argument where the flag is set, and else as the value itself.
    Exn { name: Operand, applied: bool },
}

/// A test of what stands at the end of a way into a value.
#[derive(Drop)]
pub struct Test {
    pub path: Path,
    pub want: Wanted,
}

/// A rule of a match: where all tests hold, it goes on with the body of this number.
#[derive(Drop)]
pub struct Rule {
    pub tests: Row<Test>,
    pub body: u32,
}

/// Which code is called.
#[derive(Clone, Copy)]
pub enum Target {
    Known(Label),
    /// That of a closed function, or the one that the first field of a closure names.
    Through,
}

/// How a body ends.
#[derive(Drop)]
pub enum End {
    /// Compares two values, and calls the continuation with `truth` where they are equal and with its opposite where they aren't.
    Equal {
        left: Operand,
        right: Operand,
        truth: bool,
        next: Operand,
    },
    /// Calls a function with itself and its arguments.
    Call {
        target: Target,
        function: Operand,
        operands: Row<Operand>,
    },
    /// Goes on with the first rule all of whose tests hold, and else with the last body, by number.
    Match {
        subject: Operand,
        rules: Row<Rule>,
        otherwise: u32,
    },
    /// Calls the function in the handler register with a packet.
    Throw(Operand),
    /// The normal end.
    Halt,
}

/// A body: what is done in order, and the end.
#[derive(Drop)]
pub struct Body {
    pub binds: Row<Bind>,
    pub end: End,
}

/// A function: its parameters, of which the first is its own closure, and its body by number.
#[derive(Drop)]
pub struct Function {
    pub params: Row<Variable>,
    pub body: u32,
}
