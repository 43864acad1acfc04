//! Whether the nodes below a number can be gone through by themselves.

ghost use Rattle.std.specs.Prelude.{◌≡◌, ◌<◌, ◌&&◌, [], ◌∷◌, length, nat_lt, flat_map, map, slice_get, IsTrue, IfOk};
ghost use Rattle.std.specs.List.{list_all};
ghost use Rattle.sml_tree.specs.BareParts.{node_parts, rule_parts, IsNumbered};
ghost use Rattle.infer_scopes.specs.Prefix.{near_parts, binding_parts, is_binder, is_binder_at, IsGoodAt, IsPrefix};

use sml_tree::bare::{Binding, Field, RecBinding, Rule};
use sml_tree::{Bare, Node};
use smlc_base::NoMemory;
use std::alloc::Global;

fn one(alloc: Global, part: u32) -> Result<Vec<u32>, NoMemory>
    ensures { IfOk result (λ v. v.items ≡ part ∷ []) }
{
    let mut parts = Vec::new(alloc);
    parts.push(part)?;
    Ok(parts)
}

fn two(alloc: Global, first: u32, second: u32) -> Result<Vec<u32>, NoMemory>
    ensures { IfOk result (λ v. v.items ≡ first ∷ second ∷ []) }
{
    let mut parts = Vec::new(alloc);
    parts.push(first)?;
    parts.push(second)?;
    Ok(parts)
}

fn of_fields(alloc: Global, fields: &[Field]) -> Result<Vec<u32>, NoMemory>
    ensures { IfOk result (λ v. v.items ≡ map (λ f. f.node) fields.now) }
{
    let parts = fields.iter().map(|field| field.node).collect(alloc)?;
    Ok(parts)
}

fn of_rights(alloc: Global, bindings: &[RecBinding]) -> Result<Vec<u32>, NoMemory>
    ensures { IfOk result (λ v. v.items ≡ map (λ b. b.right) bindings.now) }
{
    let parts = bindings.iter().map(|binding| binding.right).collect(alloc)?;
    Ok(parts)
}

fn of_patterns(alloc: Global, bindings: &[Binding]) -> Result<Vec<u32>, NoMemory>
    ensures { IfOk result (λ v. v.items ≡ map (λ b. b.pat) bindings.now) }
{
    let parts = bindings.iter().map(|binding| binding.pat).collect(alloc)?;
    Ok(parts)
}

fn of_rule_patterns(alloc: Global, rules: &[Rule]) -> Result<Vec<u32>, NoMemory>
    ensures { IfOk result (λ v. v.items ≡ map (λ r. r.pat) rules.now) }
{
    let parts = rules.iter().map(|rule| rule.pat).collect(alloc)?;
    Ok(parts)
}

fn of_bindings(alloc: Global, bindings: &[Binding]) -> Result<Vec<u32>, NoMemory>
    ensures { IfOk result (λ v. v.items ≡ flat_map (λ b. b.pat ∷ b.right ∷ []) bindings.now) }
{
    let mut parts = Vec::new(alloc);
    'bindings: for binding in bindings {
        parts.push(binding.pat)?;
        parts.push(binding.right)?;
    }
    Ok(parts)
}

fn of_rules(alloc: Global, rules: &[Rule]) -> Result<Vec<u32>, NoMemory>
    ensures { IfOk result (λ v. v.items ≡ flat_map rule_parts rules.now) }
{
    let mut parts = Vec::new(alloc);
    'rules: for rule in rules {
        parts.push(rule.pat)?;
        parts.push(rule.body)?;
    }
    Ok(parts)
}

// A part, and those of rules behind it.
fn of_match(alloc: Global, argument: u32, rules: &[Rule]) -> Result<Vec<u32>, NoMemory>
    ensures { IfOk result (λ v. v.items ≡ argument ∷ flat_map rule_parts rules.now) }
{
    let mut parts = Vec::new(alloc);
    parts.push(argument)?;
    'rules: for rule in rules {
        parts.push(rule.pat)?;
        parts.push(rule.body)?;
    }
    Ok(parts)
}

// The parts of a node, from left to right.
fn node_parts(alloc: Global, node: &Node) -> Result<Vec<u32>, NoMemory>
    ensures { IfOk result (λ v. v.items ≡ node_parts node.now) }
{
    match node {
        Node::Record(fields) => of_fields(alloc, fields.items()),
        Node::App(function, argument) => two(alloc, *function, *argument),
        Node::Case(e, rules) => of_match(alloc, *e, rules.items()),
        Node::Fn(rules) => of_rules(alloc, rules.items()),
        Node::Raise(e) => one(alloc, *e),
        Node::Handle(e, rules) => of_match(alloc, *e, rules.items()),
        Node::Typed(e, _) => one(alloc, *e),
        Node::Let(dec, body) => two(alloc, *dec, *body),
        Node::PatApp(_, pat) => one(alloc, *pat),
        Node::PatRecord(fields) => of_fields(alloc, fields.items()),
        Node::PatTyped(pat, _) => one(alloc, *pat),
        Node::PatAs(_, pat) => one(alloc, *pat),
        Node::PatAsCon(_, pat) => one(alloc, *pat),
        Node::Val(_, bindings) => of_bindings(alloc, bindings.items()),
        Node::ValRec(_, bindings) => of_rights(alloc, bindings.items()),
        _ => Ok(Vec::new(alloc)),
    }
}

// The parts of a node, but for what stands behind a declaration.
fn near_parts(alloc: Global, node: &Node) -> Result<Vec<u32>, NoMemory>
    ensures { IfOk result (λ v. v.items ≡ near_parts node.now) }
{
    match node {
        Node::Let(dec, _) => one(alloc, *dec),
        _ => node_parts(alloc, node),
    }
}

// The parts of a node whose names it asks for.
fn binding_parts(alloc: Global, node: &Node) -> Result<Vec<u32>, NoMemory>
    ensures { IfOk result (λ v. v.items ≡ binding_parts node.now) }
{
    match node {
        Node::Case(_, rules) => of_rule_patterns(alloc, rules.items()),
        Node::Fn(rules) => of_rule_patterns(alloc, rules.items()),
        Node::Handle(_, rules) => of_rule_patterns(alloc, rules.items()),
        Node::Let(dec, _) => one(alloc, *dec),
        Node::PatApp(_, pat) => one(alloc, *pat),
        Node::PatRecord(fields) => of_fields(alloc, fields.items()),
        Node::PatTyped(pat, _) => one(alloc, *pat),
        Node::PatAs(_, pat) => one(alloc, *pat),
        Node::Val(_, bindings) => of_patterns(alloc, bindings.items()),
        _ => Ok(Vec::new(alloc)),
    }
}

fn is_binder(node: &Node) -> bool
    ensures { result ≡ is_binder node.now }
{
    match node {
        Node::Wild | Node::PatInt(_) | Node::PatChar(_) | Node::PatText(_) => true,
        Node::PatVar(_) | Node::PatCon(_) | Node::PatApp(_, _) | Node::PatRecord(_) => true,
        Node::PatTyped(_, _) | Node::PatAs(_, _) | Node::PatAsCon(_, _) => true,
        Node::Val(_, _) | Node::ValRec(_, _) | Node::Type(_) | Node::Datatype(_) => true,
        Node::Exception(_, _) | Node::SameException(_, _) | Node::NoException(_) => true,
        _ => false,
    }
}

fn is_binder_at(nodes: &[Node], at: u32) -> bool
    ensures { result ≡ is_binder_at (slice_get nodes.now at) }
{
    match nodes.get(at as usize) {
        Some(node) => is_binder(node),
        None => false,
    }
}

fn are_binders(nodes: &[Node], parts: &[u32]) -> bool
    ensures { result ≡ list_all (λ c. is_binder_at (slice_get nodes.now c)) parts.now }
{
    parts.iter().all(|part| is_binder_at(nodes, *part))
}

fn are_below(parts: &[u32], end: usize) -> bool
    ensures { result ≡ list_all (λ c. nat_lt c end) parts.now }
{
    parts.iter().all(|part| (*part as usize) < end)
}

fn are_between(parts: &[u32], start: usize, end: usize) -> bool
    ensures { result ≡ list_all (λ c. nat_lt start c && nat_lt c end) parts.now }
{
    parts
        .iter()
        .all(|part| start < *part as usize && (*part as usize) < end)
}

// Whether a node's parts stand where they should.
fn is_good(alloc: Global, nodes: &[Node], at: usize, count: usize) -> Result<bool, NoMemory>
    requires { at < length nodes.now }
    ensures { IfOk result (λ good. IsTrue good → IsGoodAt nodes.now count at) }
{
    let node = &nodes[at];
    let parts = node_parts(alloc, node)?;
    if !are_between(&parts, at, nodes.len()) {
        return Ok(false);
    }
    if at >= count {
        return Ok(true);
    }
    let near = near_parts(alloc, node)?;
    if !are_below(&near, count) {
        return Ok(false);
    }
    let binding = binding_parts(alloc, node)?;
    Ok(are_binders(nodes, &binding))
}

/// Whether each part of a node is a node of a greater number, each part of a node below `count` is below `count` unless it stands behind a declaration, and patterns and declarations stand where names are asked for.
pub fn is_prefix(alloc: Global, bare: &Bare, count: u32) -> Result<bool, NoMemory>
    ensures numbered { IfOk result (λ good. IsTrue good → IsNumbered bare.now.nodes) }
    ensures prefix { IfOk result (λ good. IsTrue good → IsPrefix bare.now.nodes count) }
{
    let nodes = bare.nodes.items();
    'nodes: for at in 0..nodes.len() {
        if !is_good(alloc, nodes, at, count as usize)? {
            return Ok(false);
        }
    }
    Ok(true)
}
