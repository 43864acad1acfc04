//! What nodes are as patterns.

ghost use Rattle.std.specs.Prelude.{◌≡◌};
ghost use Rattle.expand_patterns.specs.Forms.{form_of};

use sml_tree::TreeNode;

/// What a node is as a pattern.
#[derive(Clone, Copy, PartialEq, Eq, Debug)]
pub enum Form {
    /// An item of a list and those behind it.
    More,
    /// An identifier.
    Name,
    /// An identifier as the part: behind `op`, or as a row.
    NamePart,
    Int(i64),
    Char(u8),
    Text(u32),
    /// `_`, and what is no pattern.
    Wild,
    /// `( )` or `{ }`.
    Empty,
    /// `[ ]`.
    EmptyList,
    /// `( pat )`.
    Inside,
    /// `lab = pat`.
    Row,
    /// `[ pat {, pat} ]`.
    Items,
    /// `{ patrow {, patrow} }`.
    Rows,
    /// `( pat , pat {, pat} )`.
    Tuple,
    /// `[op] longvid atpat`.
    Applied,
    /// `pat vid pat`.
    Infix,
    /// `pat : ty`.
    Typed,
    /// `vid : ty` as a row.
    TypedRow,
    /// `[op] vid as pat`, a row too.
    Layered,
    /// `[op] vid : ty as pat`, a row too.
    TypedLayered,
}

/// What a node is as a pattern.
pub fn form_of(node: TreeNode) -> Form
    ensures { result ≡ form_of node }
{
    match node {
        TreeNode::MorePats | TreeNode::MoreAtpats | TreeNode::MorePatRows => Form::More,
        TreeNode::Vid(_) | TreeNode::VidEquals | TreeNode::LongVid(_) => Form::Name,
        TreeNode::Op | TreeNode::PunRow => Form::NamePart,
        TreeNode::Int(value) => Form::Int(value),
        TreeNode::Char(value) => Form::Char(value),
        TreeNode::Text(text) => Form::Text(text),
        TreeNode::PatUnit | TreeNode::PatEmptyRecord => Form::Empty,
        TreeNode::PatEmptyList => Form::EmptyList,
        TreeNode::PatParen => Form::Inside,
        TreeNode::PatRow => Form::Row,
        TreeNode::PatList => Form::Items,
        TreeNode::PatRecord => Form::Rows,
        TreeNode::PatTuple => Form::Tuple,
        TreeNode::ConPat => Form::Applied,
        TreeNode::InfixPat => Form::Infix,
        TreeNode::TypedPat => Form::Typed,
        TreeNode::TypedPunRow => Form::TypedRow,
        TreeNode::Layered | TreeNode::PunRowAs => Form::Layered,
        TreeNode::TypedLayered | TreeNode::TypedPunRowAs => Form::TypedLayered,
        _ => Form::Wild,
    }
}
