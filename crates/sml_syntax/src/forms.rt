//! Terminal symbols, fixity, and what a parser makes.

use sml_tree::{Status, TreeNode};
use smlc_base::Name;

/// How an integer constant is written.
#[derive(Clone, Copy)]
pub enum Shape {
    /// One decimal digit: it may stand in a fixity directive, and is a label where it isn't 0.
    Digit(u8),
    /// Two or more decimal digits without a leading 0: a label.
    Numeral,
    /// With a sign, a leading 0 or hexadecimal digits.
    Other,
}

/// A token as the grammar sees it.
#[derive(Clone, Copy)]
pub enum Terminal {
    /// An identifier, and whether it is `*`.
    Id(Name, bool),
    /// A long identifier, and whether it may name a type constructor: its last part isn't `*`.
    Long(Name, bool),
    TyVar(Name),
    Int(i64, Shape),
    Char(u8),
    /// A string constant, by its number.
    Text(u32),
    Val,
    Fun,
    Type,
    Datatype,
    Exception,
    Local,
    In,
    End,
    Infix,
    Infixr,
    Nonfix,
    And,
    Rec,
    Of,
    Op,
    Let,
    Case,
    Fn,
    Raise,
    If,
    Then,
    Else,
    While,
    Do,
    Andalso,
    Orelse,
    Handle,
    As,
    /// `(`
    Open,
    /// `)`
    Close,
    OpenBracket,
    CloseBracket,
    OpenBrace,
    CloseBrace,
    Comma,
    Colon,
    Semicolon,
    Underscore,
    Bar,
    Equals,
    /// `=>`
    Arrow,
    /// `->`
    To,
    /// A token of which no phrase has one.
    Foreign,
    /// The end of the last file.
    Finish,
}

/// A fixity directive for one identifier.
#[derive(Clone, Copy)]
pub struct Directive {
    pub name: Name,
    pub status: Status,
}

/// What stands at the root of an infix phrase: none, or an operator with its precedence and whether it associates to the right.
#[derive(Clone, Copy)]
pub enum Root {
    Bare,
    Operator(u8, bool),
}

/// A terminal under the fixity in force.
#[derive(Clone, Copy)]
pub enum Look {
    /// An identifier without infix status, and whether it is `*`.
    Plain(Name, bool),
    /// One with infix status: whether it is `*`, its precedence, and whether it associates to the right.
    Operator(Name, bool, u8, bool),
    /// Any other terminal.
    Other(Terminal),
}

/// An infix operator of an expression.
#[derive(Clone, Copy)]
pub struct InfixVid {
    pub vid: TreeNode,
    pub level: u8,
    pub right: bool,
}

/// A node of the tree, with where its first token stands.
#[derive(Clone, Copy)]
pub enum Made {
    /// A node that begins with its first part.
    Inner(TreeNode),
    /// A node that begins with a token of its own, and how many tokens there are from that one on, the end included.
    Lead(TreeNode, usize),
}
