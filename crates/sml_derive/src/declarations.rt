//! Declarations.

ghost use Rattle.std.specs.Prelude.{IfOk};
ghost use Rattle.sml_expansion.specs.Terms.{Term};
ghost use Rattle.sml_expansion.specs.Sources.{IsAt};
ghost use Rattle.sml_expansion.specs.Expressions.{decs};
ghost use Rattle.sml_derive.specs.Steps.{Declares, scope};

use crate::function_declarations::fun_dec;
use crate::number::add;
use crate::parts::{datatype_dec, exception_dec, hide, type_dec};
use crate::value_declarations::val_dec;
use sml_expansion::{Parsed, Walk};
use sml_tree::TreeNode;
use smlc_base::NoMemory;

/// The declarations of a sequence: how many trees there are. What they bind is in scope.
#[cycle(phrases)]
pub(crate) fn decs(parsed: &Parsed, walk: &mut Walk, at: u32) -> Result<u32, NoMemory>
    ensures { IfOk result (λ trees. (t : Term) → IsAt parsed.now at t → Declares (decs (scope parsed.now walk.old) t) walk.old walk.new trees) }
{
    let mut next = at;
    let mut trees = 0;
    while let TreeNode::MoreDecs = parsed.node(next) {
        let (first, rest) = parsed.two(next);
        let more = dec(parsed, walk, first)?;
        trees = add(trees, more)?;
        next = rest;
    }
    let more = dec(parsed, walk, next)?;
    add(trees, more)
}

/// A declaration.
#[cycle(phrases)]
fn dec(parsed: &Parsed, walk: &mut Walk, at: u32) -> Result<u32, NoMemory>
    ensures { IfOk result (λ trees. (t : Term) → IsAt parsed.now at t → Declares (decs (scope parsed.now walk.old) t) walk.old walk.new trees) }
{
    match parsed.node(at) {
        TreeNode::MoreDecs => {
            let (first, rest) = parsed.two(at);
            let trees = decs(parsed, walk, first)?;
            let more = decs(parsed, walk, rest)?;
            add(trees, more)
        }
        TreeNode::Local => {
            let (inner, outer) = parsed.two(at);
            let values = walk.bindings.values.len();
            let types = walk.bindings.types.len();
            let trees = decs(parsed, walk, inner)?;
            let inner_values = walk.bindings.values.len();
            let inner_types = walk.bindings.types.len();
            let more = decs(parsed, walk, outer)?;
            hide(walk, values, inner_values, types, inner_types)?;
            add(trees, more)
        }
        TreeNode::Val => val_dec(parsed, walk, at),
        TreeNode::Fun => fun_dec(parsed, walk, at),
        TreeNode::Type => {
            let place = parsed.place(at);
            walk.open()?;
            type_dec(parsed, walk, place, parsed.one(at))?;
            Ok(1)
        }
        TreeNode::Datatype => {
            let place = parsed.place(at);
            walk.open()?;
            datatype_dec(parsed, walk, place, parsed.one(at))?;
            Ok(1)
        }
        TreeNode::Exception => {
            let place = parsed.place(at);
            exception_dec(parsed, walk, place, parsed.one(at))
        }
        _ => Ok(0),
    }
}
