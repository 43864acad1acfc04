//! Terms by number.

use sml_tree::bare::{Con, RecBinding};
use smlc_base::{Name, Named, Primitive, Row, Test};

/// A rule of a match: it is chosen where all tests hold, and its body is evaluated under its names.
#[derive(Drop)]
pub struct Case {
    pub tests: Row<Test>,
    pub names: Row<Named>,
    pub body: u32,
}

/// A binding of a value declaration: a match of one rule, without the body.
#[derive(Drop)]
pub struct Bind {
    pub tests: Row<Test>,
    pub names: Row<Named>,
    pub right: u32,
}

/// A part of a tuple in the order of evaluation, and its place in the tuple.
#[derive(Clone, Copy)]
pub struct Part {
    pub slot: u32,
    pub node: u32,
}

/// A term. Its parts are terms with greater numbers.
#[derive(Drop)]
pub enum Term {
    Int(i64),
    Char(u8),
    /// A string constant, by its number.
    Text(u32),
    Var(Name),
    /// A constructor. With an argument it is the function part of an application.
    Constructor(Con),
    /// A primitive. One of a function type is the function part of an application.
    Builtin(Primitive),
    Tuple(Row<Part>),
    App(u32, u32),
    /// Where no rule is chosen it raises Match.
    Match(u32, Row<Case>),
    /// A function of one parameter, which is the subject of the rules. Where none is chosen it raises Match.
    Fn(Row<Case>),
    Raise(u32),
    /// Where no rule is chosen the packet is raised again.
    Handle(u32, Row<Case>),
    /// Another term in this place: that of which a type was written.
    Same(u32),
    Let(u32, u32),
    /// The end of the program.
    Finish,
    /// A declaration: matches one inside the other, each of one rule. Where it isn't chosen it raises Bind.
    Binds(Row<Bind>),
    /// A declaration of functions that see one another.
    Group(Row<RecBinding>),
    /// A declaration of a new exception name.
    NewExn(Name),
    /// A declaration of another name of an exception name.
    SameExn(Name, Con),
    /// A declaration that does nothing.
    Nothing,
    /// What stands for no term: a pattern.
    Gone,
}
