//! Identifiers and constants.

ghost use Rattle.std.specs.Prelude.{◌≡◌, IfOk, OnOk, Bool};
ghost use Rattle.sml_tree.specs.declared.bare.Node.{Node};
ghost use Rattle.sml_expansion.specs.Terms.{Term};
ghost use Rattle.sml_expansion.specs.Sources.{IsAt, node_at};
ghost use Rattle.sml_expansion.specs.Forests.{grown, none};
ghost use Rattle.sml_expansion.specs.Bare.{tuple_node};
ghost use Rattle.sml_expansion.specs.Expressions.{expressions, identifier, eta};
ghost use Rattle.sml_expansion.specs.Makings.{gives};
ghost use Rattle.sml_derive.specs.Steps.{Writes, scope, position, behind, marked};
ghost use Rattle.sml_derive.specs.Compounds.{is_compound};

use crate::forms;
use sml_expansion::{Ident, Meaning, Parsed, Walk};
use sml_prelude::{is_function, takes_argument};
use sml_tree::TreeNode;
use sml_tree::bare::{Con, Node};
use smlc_base::{NoMemory, Place, Refusal, Row};

/// Where an expression stands.
#[derive(Clone, Copy, PartialEq, Eq, Debug)]
pub enum Stands {
    /// As the function part of an application.
    Applied,
    Elsewhere,
}

/// An identifier: a function that isn't applied is expanded.
pub(crate) fn identifier(
    parsed: &Parsed,
    walk: &mut Walk,
    stands: Stands,
    place: Place,
    ident: Ident,
) -> Result<(), NoMemory>
    ensures { OnOk result (walk.new ≡ behind (identifier (position stands) (scope parsed.now walk.old) place ident) walk.old) }
{
    match parsed.value(&walk.bindings, ident.key) {
        Some(Meaning::Variable(name)) => walk.leaf(Node::Var(name), place),
        Some(Meaning::Constructor(con)) => eta(
            walk,
            stands,
            place,
            takes_argument(con),
            Node::Constructor(con),
        ),
        Some(Meaning::Builtin(primitive)) => eta(
            walk,
            stands,
            place,
            is_function(primitive),
            Node::Builtin(primitive),
        ),
        None => {
            walk.made.refuse(Refusal::Unbound(ident.place));
            forms::unit(walk, place)
        }
    }
}

/// A primitive or a constructor.
fn eta(
    walk: &mut Walk,
    stands: Stands,
    place: Place,
    function: bool,
    node: Node,
) -> Result<(), NoMemory>
    ensures { OnOk result (walk.new ≡ behind (eta (position stands) place function (grown node place none)) walk.old) }
{
    match stands {
        Stands::Applied => walk.leaf(node, place),
        Stands::Elsewhere => {
            if function {
                forms::eta(walk, place, node)
            } else {
                walk.leaf(node, place)
            }
        }
    }
}

/// An expression without parts, or an identifier.
pub(crate) fn atom(
    parsed: &Parsed,
    walk: &mut Walk,
    stands: Stands,
    at: u32,
) -> Result<u32, NoMemory>
    requires { is_compound (node_at parsed.now at) ≡ Bool.false }
    ensures { IfOk result (λ trees. (t : Term) → IsAt parsed.now at t → Writes (expressions (position stands) (scope parsed.now walk.old) t) walk.old walk.new trees) }
{
    let place = parsed.place(at);
    match parsed.node(at) {
        TreeNode::Vid(_) => identifier(parsed, walk, stands, place, parsed.ident(at))?,
        TreeNode::VidEquals => identifier(parsed, walk, stands, place, parsed.ident(at))?,
        TreeNode::LongVid(_) => identifier(parsed, walk, stands, place, parsed.ident(at))?,
        TreeNode::Op => identifier(parsed, walk, stands, place, parsed.ident(at))?,
        TreeNode::Int(value) => walk.leaf(Node::Int(value), place)?,
        TreeNode::Char(value) => walk.leaf(Node::Char(value), place)?,
        TreeNode::Text(number) => walk.leaf(Node::Text(number), place)?,
        TreeNode::Unit => forms::unit(walk, place)?,
        TreeNode::EmptyRecord => forms::unit(walk, place)?,
        TreeNode::EmptyList => walk.leaf(Node::Constructor(forms::NIL), place)?,
        _ => return Ok(0),
    }
    Ok(1)
}
