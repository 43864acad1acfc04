//! Which nodes are non-expansive, from the parts up.

ghost use Rattle.std.specs.Prelude.{◌≡◌, IfOk};
ghost use Rattle.std.specs.List.{list_all};
ghost use Rattle.infer_parts.specs.Plain.{plain_at, is_plain_constructor, plain_node, IsPlainTable};

use sml_tree::Node;
use sml_tree::bare::{Con, Field};
use smlc_base::NoMemory;
use std::alloc::Global;

fn plain_at(table: &[bool], node: u32) -> bool
    ensures { result ≡ plain_at table.now node }
{
    (node as usize) < table.len() && table[node as usize]
}

fn is_plain_constructor(nodes: &[Node], node: u32) -> bool
    ensures { result ≡ is_plain_constructor nodes.now node }
{
    if (node as usize) < nodes.len() {
        match &nodes[node as usize] {
            Node::Constructor(Con::Ref) => false,
            Node::Constructor(_) => true,
            _ => false,
        }
    } else {
        false
    }
}

fn plain_fields(table: &[bool], fields: &[Field]) -> bool
    ensures { result ≡ list_all (λ f. plain_at table.now f.node) fields.now }
{
    fields.iter().all(|field| plain_at(table, field.node))
}

fn plain_node(nodes: &[Node], table: &[bool], node: &Node) -> bool
    ensures { result ≡ plain_node nodes.now table.now node.now }
{
    match node {
        Node::Int(_) | Node::Char(_) | Node::Text(_) => true,
        Node::Var(_) | Node::Constructor(_) | Node::Builtin(_) | Node::Fn(_) => true,
        Node::Record(fields) => plain_fields(table, fields.items()),
        Node::App(function, arg) => is_plain_constructor(nodes, *function) && plain_at(table, *arg),
        Node::Typed(inner, _) => plain_at(table, *inner),
        _ => false,
    }
}

/// For each node whether it is non-expansive.
pub fn non_expansive(alloc: Global, nodes: &[Node]) -> Result<Vec<bool>, NoMemory>
    ensures { IfOk result (λ table. IsPlainTable nodes.now table.items) }
{
    let mut table = Vec::new(alloc);
    table.resize(nodes.len(), false)?;
    let mut i = nodes.len();
    'nodes: while i > 0 {
        i -= 1;
        let plain = plain_node(nodes, &table, &nodes[i]);
        table[i] = plain;
    }
    Ok(table)
}
