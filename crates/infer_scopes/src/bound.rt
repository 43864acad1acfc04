//! The names that patterns and declarations bind.

ghost use Rattle.std.specs.Prelude.{◌≡◌, [], ◌∷◌, ◌++◌, reverse, map, slice_get, OnOk, IfOk};
ghost use Rattle.std.specs.List.{list_all};
ghost use Rattle.sml_tree.specs.BareParts.{IsNumbered};
ghost use Rattle.sml_types.specs.Poly.{is_in};
ghost use Rattle.sml_types.specs.Typing.{group_names, type_numbers, made_by};
ghost use Rattle.infer_state.specs.Names.{names_bound};
ghost use Rattle.infer_scopes.specs.Bound.{own_names, name_parts, IsTurn};

use sml_tree::bare::{Binding, DatBinding, Field, RecBinding};
use sml_tree::{Bare, Node};
use smlc_base::NoMemory;
use std::alloc::Global;

// Whether a number is among others.
fn is_among(numbers: &[u32], number: u32) -> bool
    ensures { result ≡ is_in numbers.now number }
{
    numbers.iter().any(|other| number == *other)
}

// Whether numbers are all among others.
pub(crate) fn are_among(numbers: &[u32], few: &[u32]) -> bool
    ensures { result ≡ list_all (is_in numbers.now) few.now }
{
    few.iter().all(|number| is_among(numbers, *number))
}

// The names of a recursive declaration.
pub(crate) fn group_names(alloc: Global, bindings: &[RecBinding]) -> Result<Vec<u32>, NoMemory>
    ensures { IfOk result (λ v. v.items ≡ map (λ b. b.name.0) bindings.now) }
{
    let names = bindings.iter().map(|b| b.name.0).collect(alloc)?;
    Ok(names)
}

// The type names of datatype bindings.
fn numbers_of(alloc: Global, bindings: &[DatBinding]) -> Result<Vec<u32>, NoMemory>
    ensures { IfOk result (λ v. v.items ≡ map (λ b. b.type_name) bindings.now) }
{
    let numbers = bindings.iter().map(|b| b.type_name).collect(alloc)?;
    Ok(numbers)
}

fn type_numbers(alloc: Global, bindings: &[DatBinding]) -> Result<Vec<u32>, NoMemory>
    ensures { IfOk result (λ v. v.items ≡ type_numbers bindings.now) }
{
    let numbers = numbers_of(alloc, bindings)?;
    Ok(numbers)
}

// The type names that a declaration makes.
fn made(alloc: Global, node: &Node) -> Result<Vec<u32>, NoMemory>
    ensures { IfOk result (λ v. v.items ≡ made_by (Some node.now)) }
{
    match node {
        Node::Datatype(bindings) => type_numbers(alloc, bindings.items()),
        _ => Ok(Vec::new(alloc)),
    }
}

// The type names that the declaration of a number makes.
pub(crate) fn made_by(alloc: Global, nodes: &[Node], at: u32) -> Result<Vec<u32>, NoMemory>
    ensures { IfOk result (λ v. v.items ≡ made_by (slice_get nodes.now at)) }
{
    match nodes.get(at as usize) {
        Some(node) => made(alloc, node),
        None => Ok(Vec::new(alloc)),
    }
}

fn push_one(numbers: &mut Vec<u32>, number: u32) -> Result<(), NoMemory>
    ensures { OnOk result (numbers.new.items ≡ numbers.old.items ++ number ∷ []) }
{
    numbers.push(number)?;
    Ok(())
}

fn push_group(found: &mut Vec<u32>, bindings: &[RecBinding]) -> Result<(), NoMemory>
    ensures { OnOk result (found.new.items ≡ found.old.items ++ group_names bindings.now) }
{
    'bindings: for binding in bindings {
        found.push(binding.name.0)?;
    }
    Ok(())
}

// The names that stand in a node.
fn push_names(found: &mut Vec<u32>, node: &Node) -> Result<(), NoMemory>
    ensures { OnOk result (found.new.items ≡ found.old.items ++ own_names node.now) }
{
    match node {
        Node::PatVar(name) => push_one(found, name.0),
        Node::PatAs(name, _) => push_one(found, name.0),
        Node::ValRec(_, bindings) => push_group(found, bindings.items()),
        Node::Exception(name, _) => push_one(found, name.0),
        Node::SameException(name, _) => push_one(found, name.0),
        _ => Ok(()),
    }
}

fn push_fields(work: &mut Vec<u32>, fields: &[Field]) -> Result<(), NoMemory>
    ensures { OnOk result (work.new.items ≡ work.old.items ++ reverse (map (λ l. l.node) fields.now)) }
{
    let mut i = fields.len();
    'fields: while i > 0 {
        i -= 1;
        work.push(fields[i].node)?;
    }
    Ok(())
}

fn push_patterns(work: &mut Vec<u32>, bindings: &[Binding]) -> Result<(), NoMemory>
    ensures { OnOk result (work.new.items ≡ work.old.items ++ reverse (map (λ b. b.pat) bindings.now)) }
{
    let mut i = bindings.len();
    'bindings: while i > 0 {
        i -= 1;
        work.push(bindings[i].pat)?;
    }
    Ok(())
}

// The parts whose names are names of a node, the first one last.
fn push_parts(work: &mut Vec<u32>, node: &Node) -> Result<(), NoMemory>
    ensures { OnOk result (work.new.items ≡ work.old.items ++ reverse (name_parts node.now)) }
{
    match node {
        Node::PatApp(_, pat) => push_one(work, *pat),
        Node::PatRecord(fields) => push_fields(work, fields.items()),
        Node::PatTyped(pat, _) => push_one(work, *pat),
        Node::PatAs(_, pat) => push_one(work, *pat),
        Node::Val(_, bindings) => push_patterns(work, bindings.items()),
        _ => Ok(()),
    }
}

// Finds the names that stand in a node, and lets its parts wait.
fn turn(
    nodes: &[Node],
    next: u32,
    found: &mut Vec<u32>,
    work: &mut Vec<u32>,
) -> Result<(), NoMemory>
    ensures { OnOk result (IsTurn nodes.now next found.old.items found.new.items work.old.items work.new.items) }
{
    let at = next as usize;
    if at >= nodes.len() {
        return Err(NoMemory);
    }
    push_names(found, &nodes[at])?;
    push_parts(work, &nodes[at])?;
    Ok(())
}

/// The names that the pattern or declaration of a number binds, in order.
pub fn pattern_names(alloc: Global, bare: &Bare, node: u32) -> Result<Vec<u32>, NoMemory>
    requires { IsNumbered bare.now.nodes }
    ensures { IfOk result (λ v. v.items ≡ names_bound bare.now.nodes node) }
{
    let nodes = bare.nodes.items();
    let mut found = Vec::new(alloc);
    let mut work = Vec::new(alloc);
    work.push(node)?;
    // Each node is a part once, so there are no more turns than nodes.
    'turns: for _ in 0..nodes.len() {
        let Some(next) = work.pop() else {
            return Ok(found);
        };
        turn(nodes, next, &mut found, &mut work)?;
    }
    Err(NoMemory)
}
