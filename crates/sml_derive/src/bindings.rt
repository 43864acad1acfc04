//! The bindings of value declarations.

ghost use Rattle.std.specs.Prelude.{OnOk};
ghost use Rattle.sml_expansion.specs.Terms.{Term};
ghost use Rattle.sml_expansion.specs.Sources.{IsAt};
ghost use Rattle.sml_expansion.specs.Expressions.{plain_bindings};
ghost use Rattle.sml_derive.specs.Steps.{Binds, scope};

use crate::expressions::expression;
use crate::identifiers::Stands;
use crate::parts::pattern;
use sml_expansion::{Bound, Parsed, Walk};
use sml_tree::TreeNode;
use smlc_base::NoMemory;

/// The patterns and right sides of the bindings before the first `rec`, with the variables that they bind.
#[cycle(phrases)]
pub(crate) fn plain_bindings(
    parsed: &Parsed,
    walk: &mut Walk,
    vars: &mut Vec<Bound>,
    at: u32,
) -> Result<(), NoMemory>
    ensures { OnOk result ((t : Term) → IsAt parsed.now at t → Binds (plain_bindings (scope parsed.now walk.old) t) walk.old walk.new vars.old.items vars.new.items) }
{
    let mut next = at;
    while let TreeNode::MoreValBinds = parsed.node(next) {
        let (first, rest) = parsed.two(next);
        plain_binding(parsed, walk, vars, first)?;
        next = rest;
    }
    plain_binding(parsed, walk, vars, next)
}

/// A binding before the first `rec`.
#[cycle(phrases)]
fn plain_binding(
    parsed: &Parsed,
    walk: &mut Walk,
    vars: &mut Vec<Bound>,
    at: u32,
) -> Result<(), NoMemory>
    ensures { OnOk result ((t : Term) → IsAt parsed.now at t → Binds (plain_bindings (scope parsed.now walk.old) t) walk.old walk.new vars.old.items vars.new.items) }
{
    match parsed.node(at) {
        TreeNode::ValBind => {
            let (left, right) = parsed.two(at);
            pattern(parsed, walk, vars, left)?;
            expression(parsed, walk, Stands::Elsewhere, right)?;
            Ok(())
        }
        TreeNode::MoreValBinds => {
            let (first, rest) = parsed.two(at);
            plain_bindings(parsed, walk, vars, first)?;
            plain_bindings(parsed, walk, vars, rest)
        }
        _ => Ok(()),
    }
}
