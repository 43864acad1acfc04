//! Nodes with the numbers of their parts.

ghost use Rattle.std.specs.Prelude.{◌≡◌, IfOk, drop};
ghost use Rattle.sml_expansion.specs.Forests.{rules_at, bindings_at, fields_at, rec_bindings_at, with_parts};

use crate::number::number_at;
use sml_tree::bare::{Binding, Field, Node, RecBinding, Rule};
use smlc_base::{NoMemory, Row};
use std::alloc::Global;

/// The rules whose patterns and expressions have these numbers.
fn rules_at(alloc: Global, parts: &[u32]) -> Result<Row<Rule>, NoMemory>
    ensures { IfOk result (λ rules. rules ≡ rules_at parts.now) }
{
    let mut rules = Row::new(alloc);
    let mut rest = parts;
    while let [pat, body, more @ ..] = rest {
        rules.push(Rule {
            pat: *pat,
            body: *body,
        })?;
        rest = more;
    }
    Ok(rules)
}

/// The bindings whose patterns and right sides have these numbers.
fn bindings_at(alloc: Global, parts: &[u32]) -> Result<Row<Binding>, NoMemory>
    ensures { IfOk result (λ bindings. bindings ≡ bindings_at parts.now) }
{
    let mut bindings = Row::new(alloc);
    let mut rest = parts;
    while let [pat, right, more @ ..] = rest {
        bindings.push(Binding {
            pat: *pat,
            right: *right,
        })?;
        rest = more;
    }
    Ok(bindings)
}

/// The fields with these numbers of their nodes, as far as there are some.
fn fields_at(alloc: Global, parts: &[u32], fields: Row<Field>) -> Result<Row<Field>, NoMemory>
    ensures { IfOk result (λ named. named ≡ fields_at parts.now fields) }
{
    let mut named = Row::new(alloc);
    let mut rest = parts;
    for field in fields.into_vec() {
        match rest {
            [node, more @ ..] => {
                named.push(Field {
                    node: *node,
                    ..field
                })?;
                rest = more;
            }
            [] => named.push(field)?,
        }
    }
    Ok(named)
}

/// The bindings with these numbers of their right sides, as far as there are some.
fn rec_bindings_at(
    alloc: Global,
    parts: &[u32],
    bindings: Row<RecBinding>,
) -> Result<Row<RecBinding>, NoMemory>
    ensures { IfOk result (λ named. named ≡ rec_bindings_at parts.now bindings) }
{
    let mut named = Row::new(alloc);
    let mut rest = parts;
    for binding in bindings.into_vec() {
        match rest {
            [right, more @ ..] => {
                named.push(RecBinding {
                    right: *right,
                    ..binding
                })?;
                rest = more;
            }
            [] => named.push(binding)?,
        }
    }
    Ok(named)
}

/// The parts behind the first.
fn behind_first(parts: &[u32]) -> &[u32]
    ensures { result.now ≡ drop 1 parts.now }
{
    match parts {
        [] => parts,
        [_, rest @ ..] => rest,
    }
}

/// A node that names its parts.
pub(crate) fn with_parts(alloc: Global, node: Node, parts: &[u32]) -> Result<Node, NoMemory>
    ensures { IfOk result (λ named. named ≡ with_parts node parts.now) }
{
    let named = match node {
        Node::Record(fields) => Node::Record(fields_at(alloc, parts, fields)?),
        Node::App(_, _) => Node::App(number_at(parts, 0), number_at(parts, 1)),
        Node::Case(_, _) => Node::Case(number_at(parts, 0), rules_at(alloc, behind_first(parts))?),
        Node::Fn(_) => Node::Fn(rules_at(alloc, parts)?),
        Node::Raise(_) => Node::Raise(number_at(parts, 0)),
        Node::Handle(_, _) => Node::Handle(
            number_at(parts, 0),
            rules_at(alloc, behind_first(parts))?,
        ),
        Node::Typed(_, ty) => Node::Typed(number_at(parts, 0), ty),
        Node::Let(_, _) => Node::Let(number_at(parts, 0), number_at(parts, 1)),
        Node::PatApp(con, _) => Node::PatApp(con, number_at(parts, 0)),
        Node::PatRecord(fields) => Node::PatRecord(fields_at(alloc, parts, fields)?),
        Node::PatTyped(_, ty) => Node::PatTyped(number_at(parts, 0), ty),
        Node::PatAs(name, _) => Node::PatAs(name, number_at(parts, 0)),
        Node::PatAsCon(name, _) => Node::PatAsCon(name, number_at(parts, 0)),
        Node::Val(tyvars, _) => Node::Val(tyvars, bindings_at(alloc, parts)?),
        Node::ValRec(tyvars, bindings) => Node::ValRec(
            tyvars,
            rec_bindings_at(alloc, parts, bindings)?,
        ),
        other => other,
    };
    Ok(named)
}
