//! The bare tree: flat numbered nodes, a node's parts numbered above it.

use smlc_base::{Bytes, LibraryExn, Name, Place, Primitive, Row};

/// A constructor.
#[derive(Clone, Copy, PartialEq, Eq, Debug)]
pub enum Con {
    /// A datatype's: the number of the type name, its own number in written order, and whether it takes an argument.
    Data {
        type_name: u32,
        number: u32,
        takes: bool,
    },
    Ref,
    /// An exception constructor that the user declares or renames, and whether it takes an argument.
    Exn {
        name: Name,
        takes: bool,
    },
    Library(LibraryExn),
}

/// A label of a record. Numbers come first, by value, then texts, by their bytes.
#[derive(Debug, Drop)]
pub enum Lab {
    Num(i64),
    Text(Bytes),
}

/// A field of a record or of a record pattern, in written order: its label, its place in the order of the record's labels, and its node.
#[derive(Drop)]
pub struct Field {
    pub lab: Lab,
    pub slot: u32,
    pub node: u32,
}

/// A rule of a match.
#[derive(Clone, Copy)]
pub struct Rule {
    pub pat: u32,
    pub body: u32,
}

/// A binding of a value declaration.
#[derive(Clone, Copy)]
pub struct Binding {
    pub pat: u32,
    pub right: u32,
}

/// A binding of a recursive value declaration. Its right side is a `Fn` node, perhaps under `Typed` nodes.
#[derive(Clone, Copy)]
pub struct RecBinding {
    pub name: Name,
    pub right: u32,
}

/// A field of a record type, in written order: its label, its place in the order of the record's labels, and its type.
#[derive(Drop)]
pub struct TypeField {
    pub lab: Lab,
    pub slot: u32,
    pub ty: u32,
}

/// A type as it is written. Its parts are types of smaller numbers.
#[derive(Drop)]
pub enum TypeExp {
    /// The type variable of a number.
    Var(u32),
    Record(Row<TypeField>),
    Arrow(u32, u32),
    /// The type name of a number, at its arguments.
    Named(u32, Row<u32>),
    /// The type constructor of the `type` binding of a number, at its arguments.
    Abbreviation(u32, Row<u32>),
    /// `unit` at arguments. It takes none, so no typing exists.
    UnitOf(Row<u32>),
}

/// A binding of a `type` declaration: its number, the numbers of its type variables, and its type.
#[derive(Drop)]
pub struct TypeBinding {
    pub number: u32,
    pub params: Row<u32>,
    pub ty: u32,
}

/// A constructor of a datatype, with the type of its argument.
#[derive(Drop)]
pub struct ConBinding {
    pub text: Bytes,
    pub arg: Option<u32>,
}

/// A binding of a `datatype` declaration: the number of its type name, its spelling, the numbers of its type variables, and its constructors.
#[derive(Drop)]
pub struct DatBinding {
    pub type_name: u32,
    pub text: Bytes,
    pub params: Row<u32>,
    pub cons: Row<ConBinding>,
}

/// A node. A part of a node is named by its number.
#[derive(Drop)]
pub enum Node {
    Int(i64),
    Char(u8),
    /// A string constant, by its number.
    Text(u32),
    Var(Name),
    Constructor(Con),
    Builtin(Primitive),
    Record(Row<Field>),
    App(u32, u32),
    Case(u32, Row<Rule>),
    Fn(Row<Rule>),
    Raise(u32),
    Handle(u32, Row<Rule>),
    /// An expression and the number of its type.
    Typed(u32, u32),
    Let(u32, u32),
    /// The end of the program.
    Finish,
    /// `_`
    Wild,
    PatInt(i64),
    PatChar(u8),
    PatText(u32),
    PatVar(Name),
    PatCon(Con),
    PatApp(Con, u32),
    PatRecord(Row<Field>),
    /// A pattern and the number of its type.
    PatTyped(u32, u32),
    PatAs(Name, u32),
    /// `vid as pat` where `vid` is a constructor: no rule of bindings is broken, and no typing exists.
    PatAsCon(Name, u32),
    /// A value declaration: the numbers of the type variables that it binds, and its bindings.
    Val(Row<u32>, Row<Binding>),
    /// A recursive value declaration: the numbers of the type variables that it binds, and its bindings.
    ValRec(Row<u32>, Row<RecBinding>),
    Type(Row<TypeBinding>),
    Datatype(Row<DatBinding>),
    /// An exception declaration: the new name, and the number of its argument's type.
    Exception(Name, Option<u32>),
    /// A renaming of an exception constructor.
    SameException(Name, Con),
    /// `exception E = x` where `x` is no exception constructor: no rule of bindings is broken, and no typing exists.
    NoException(Name),
}

/// A bare tree. Node 0 is its root: one nest of `Let` whose innermost part is `Finish`. Nodes are numbered in preorder.
#[derive(Drop)]
pub struct Bare {
    pub nodes: Row<Node>,
    /// The place of each node: that of the first token of the phrase that it comes from.
    pub places: Row<Place>,
    /// The outermost `Let` of each top-level declaration, in order, the library's first.
    pub decs: Row<u32>,
    /// The value declarations of the user's top level, in order.
    pub shown: Row<u32>,
    /// The types as they are written.
    pub types: Row<TypeExp>,
    /// For each type variable whether it is an equality type variable.
    pub tyvars: Row<bool>,
    /// The spelling of each binding.
    pub names: Row<Bytes>,
    /// The string constants.
    pub texts: Row<Bytes>,
    /// The number of the user's nodes and, over their points, of the free variables that are held there.
    pub width: u64,
}
