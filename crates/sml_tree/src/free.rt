//! The variables that a node binds and those that are free in it.
//!
//! They are found from the last node to the first, so that those of a node's parts stand when it is reached.

ghost use Rattle.std.specs.Prelude.{◌≡◌, [], ◌∷◌, ◌<◌, ◌≤◌, length, IfOk, map};
ghost use Rattle.smlc_base.specs.declared.names.Name.{Name};
ghost use Rattle.sml_tree.specs.Sets.{row_at, union, union_over};
ghost use Rattle.sml_tree.specs.BareParts.{IsNumbered};
ghost use Rattle.sml_tree.specs.Free.{exception_of, names_of, binds_of, free_of, free_match, free_fields, bound_by, scoped, free};
ghost use Rattle.sml_tree.specs.IsBare.{IsAscending};
ghost use Rattle.sml_tree.specs.Variables.{AreVariables};

use crate::bare::{Bare, Binding, Con, Field, Node, RecBinding, Rule};
use crate::sets::{both, remove_all};
use smlc_base::{Name, NoMemory, Row};
use std::alloc::Global;

// The set of a node.
pub(crate) fn row(rows: &[Row<u32>], i: u32) -> &[u32]
    ensures { result.now ≡ row_at rows.now i }
{
    match rows.get(i as usize) {
        Some(found) => found.items(),
        None => &[],
    }
}

fn one(alloc: Global, x: u32) -> Result<Vec<u32>, NoMemory>
    ensures { IfOk result (λ v. v.items ≡ x ∷ []) }
{
    let mut set = Vec::new(alloc);
    set.push(x)?;
    Ok(set)
}

fn copied(alloc: Global, xs: &[u32]) -> Result<Vec<u32>, NoMemory>
    ensures { IfOk result (λ v. v.items ≡ xs.now) }
{
    Ok(xs.to_vec(alloc)?)
}

fn exception(alloc: Global, con: &Con) -> Result<Vec<u32>, NoMemory>
    ensures { IfOk result (λ v. v.items ≡ exception_of con.now) }
{
    match con {
        Con::Exn { name, .. } => one(alloc, name.0),
        Con::Data { .. } => Ok(Vec::new(alloc)),
        Con::Ref => Ok(Vec::new(alloc)),
        Con::Library(_) => Ok(Vec::new(alloc)),
    }
}

fn of_fields(alloc: Global, fields: &[Field], rows: &[Row<u32>]) -> Result<Vec<u32>, NoMemory>
    ensures { IfOk result (λ v. v.items ≡ free_fields (row_at rows.now) fields.now) }
{
    let mut set = Vec::new(alloc);
    let mut i = fields.len();
    while i > 0 {
        i -= 1;
        set = both(alloc, row(rows, fields[i].node), &set)?;
    }
    Ok(set)
}

fn behind(
    alloc: Global,
    pat: u32,
    body: u32,
    binds: &[Row<u32>],
    frees: &[Row<u32>],
) -> Result<Vec<u32>, NoMemory>
    ensures { IfOk result (λ v. v.items ≡ scoped (row_at binds.now) (row_at frees.now) pat body) }
{
    let rest = remove_all(alloc, row(frees, body), row(binds, pat))?;
    both(alloc, row(frees, pat), &rest)
}

pub(crate) fn of_rules(
    alloc: Global,
    rules: &[Rule],
    binds: &[Row<u32>],
    frees: &[Row<u32>],
) -> Result<Vec<u32>, NoMemory>
    ensures { IfOk result (λ v. v.items ≡ free_match (row_at binds.now) (row_at frees.now) rules.now) }
{
    let mut set = Vec::new(alloc);
    let mut i = rules.len();
    while i > 0 {
        i -= 1;
        let more = behind(alloc, rules[i].pat, rules[i].body, binds, frees)?;
        set = both(alloc, &more, &set)?;
    }
    Ok(set)
}

fn of_bindings(
    alloc: Global,
    bindings: &[Binding],
    frees: &[Row<u32>],
) -> Result<Vec<u32>, NoMemory>
    ensures { IfOk result (λ v. v.items ≡ union_over (λ b. union (row_at frees.now b.pat) (row_at frees.now b.right)) bindings.now) }
{
    let mut set = Vec::new(alloc);
    let mut i = bindings.len();
    while i > 0 {
        i -= 1;
        let more = both(
            alloc,
            row(frees, bindings[i].pat),
            row(frees, bindings[i].right),
        )?;
        set = both(alloc, &more, &set)?;
    }
    Ok(set)
}

fn of_patterns(
    alloc: Global,
    bindings: &[Binding],
    binds: &[Row<u32>],
) -> Result<Vec<u32>, NoMemory>
    ensures { IfOk result (λ v. v.items ≡ union_over (λ b. row_at binds.now b.pat) bindings.now) }
{
    let mut set = Vec::new(alloc);
    let mut i = bindings.len();
    while i > 0 {
        i -= 1;
        set = both(alloc, row(binds, bindings[i].pat), &set)?;
    }
    Ok(set)
}

fn of_rights(
    alloc: Global,
    bindings: &[RecBinding],
    frees: &[Row<u32>],
) -> Result<Vec<u32>, NoMemory>
    ensures { IfOk result (λ v. v.items ≡ union_over (λ b. row_at frees.now b.right) bindings.now) }
{
    let mut set = Vec::new(alloc);
    let mut i = bindings.len();
    while i > 0 {
        i -= 1;
        set = both(alloc, row(frees, bindings[i].right), &set)?;
    }
    Ok(set)
}

fn of_names(alloc: Global, bindings: &[RecBinding]) -> Result<Vec<u32>, NoMemory>
    ensures { IfOk result (λ v. v.items ≡ names_of bindings.now) }
{
    let mut set = Vec::new(alloc);
    let mut i = bindings.len();
    while i > 0 {
        i -= 1;
        set = both(alloc, &[bindings[i].name.0], &set)?;
    }
    Ok(set)
}

// The variables that a node binds, from those of its parts.
fn binds_of_node(alloc: Global, node: &Node, binds: &[Row<u32>]) -> Result<Vec<u32>, NoMemory>
    ensures { IfOk result (λ v. v.items ≡ binds_of (row_at binds.now) node.now) }
{
    match node {
        Node::PatVar(x) => one(alloc, x.0),
        Node::PatApp(_, p) => copied(alloc, row(binds, *p)),
        Node::PatRecord(fields) => of_fields(alloc, fields.items(), binds),
        Node::PatTyped(p, _) => copied(alloc, row(binds, *p)),
        Node::PatAs(x, p) => both(alloc, &[x.0], row(binds, *p)),
        Node::PatAsCon(x, p) => both(alloc, &[x.0], row(binds, *p)),
        Node::Val(_, bindings) => of_patterns(alloc, bindings.items(), binds),
        Node::ValRec(_, bindings) => of_names(alloc, bindings.items()),
        Node::Exception(x, _) => one(alloc, x.0),
        Node::SameException(x, _) => one(alloc, x.0),
        Node::NoException(x) => one(alloc, x.0),
        _ => Ok(Vec::new(alloc)),
    }
}

// The free variables of a node, from those of its parts.
fn free_of_node(
    alloc: Global,
    node: &Node,
    binds: &[Row<u32>],
    frees: &[Row<u32>],
) -> Result<Vec<u32>, NoMemory>
    ensures { IfOk result (λ v. v.items ≡ free_of (row_at binds.now) (row_at frees.now) node.now) }
{
    match node {
        Node::Var(x) => one(alloc, x.0),
        Node::Constructor(c) => exception(alloc, c),
        Node::Record(fields) => of_fields(alloc, fields.items(), frees),
        Node::App(f, a) => both(alloc, row(frees, *f), row(frees, *a)),
        Node::Case(e, rules) => {
            let more = of_rules(alloc, rules.items(), binds, frees)?;
            both(alloc, row(frees, *e), &more)
        }
        Node::Fn(rules) => of_rules(alloc, rules.items(), binds, frees),
        Node::Raise(e) => copied(alloc, row(frees, *e)),
        Node::Handle(e, rules) => {
            let more = of_rules(alloc, rules.items(), binds, frees)?;
            both(alloc, row(frees, *e), &more)
        }
        Node::Typed(e, _) => copied(alloc, row(frees, *e)),
        Node::Let(d, e) => behind(alloc, *d, *e, binds, frees),
        Node::PatCon(c) => exception(alloc, c),
        Node::PatApp(c, p) => {
            let name = exception(alloc, c)?;
            both(alloc, &name, row(frees, *p))
        }
        Node::PatRecord(fields) => of_fields(alloc, fields.items(), frees),
        Node::PatTyped(p, _) => copied(alloc, row(frees, *p)),
        Node::PatAs(_, p) => copied(alloc, row(frees, *p)),
        Node::PatAsCon(_, p) => copied(alloc, row(frees, *p)),
        Node::Val(_, bindings) => of_bindings(alloc, bindings.items(), frees),
        Node::ValRec(_, bindings) => {
            let rights = of_rights(alloc, bindings.items(), frees)?;
            let names = of_names(alloc, bindings.items())?;
            remove_all(alloc, &rights, &names)
        }
        Node::SameException(_, c) => exception(alloc, c),
        _ => Ok(Vec::new(alloc)),
    }
}

// As many empty sets.
fn empty_rows(alloc: Global, n: usize) -> Result<Vec<Row<u32>>, NoMemory>
    ensures { IfOk result (λ v. length v.items ≡ n) }
{
    let mut rows = Vec::new(alloc);
    for _ in 0..n {
        rows.push(Row::new(alloc))?;
    }
    Ok(rows)
}

/// The variables that each node binds and those that are free in it, as ascending sets of the numbers of names.
#[derive(Drop)]
pub struct Variables {
    pub bound: Vec<Row<u32>>,
    pub free: Vec<Row<u32>>,
}

impl Variables {
    /// The variables of all nodes from a number on.
    pub fn of(alloc: Global, nodes: &[Node], from: usize) -> Result<Variables, NoMemory>
        requires numbered { IsNumbered nodes.now }
        requires here { from ≤ length nodes.now }
        ensures { IfOk result (λ v. AreVariables nodes.now from v.bound.items v.free.items) }
    {
        let mut bound = empty_rows(alloc, nodes.len())?;
        let mut free = empty_rows(alloc, nodes.len())?;
        let mut i = nodes.len();
        while i > from {
            i -= 1;
            let node = &nodes[i];
            let names = binds_of_node(alloc, node, &bound)?;
            bound[i] = Row::from_vec(names);
            let set = free_of_node(alloc, node, &bound, &free)?;
            free[i] = Row::from_vec(set);
        }
        Ok(Variables { bound, free })
    }
}

// The names of the numbers.
fn names_from(alloc: Global, numbers: &[u32]) -> Result<Vec<Name>, NoMemory>
    ensures { IfOk result (λ v. map (λ x. x.0) v.items ≡ numbers.now) }
{
    let mut names = Vec::new(alloc);
    for number in numbers {
        names.push(Name(*number))?;
    }
    Ok(names)
}

impl Bare {
    /// The free variables of a node, in ascending order.
    pub fn free(&self, node: u32) -> Result<Row<Name>, NoMemory>
        requires numbered { IsNumbered self.now.nodes }
        requires here { node < length self.now.nodes }
        ensures names { IfOk result (λ r. map (λ x. x.0) r ≡ free self.now.nodes node) }
        ensures ascending { IfOk result (λ r. IsAscending 0 (map (λ x. x.0) r)) }
    {
        let alloc = self.nodes.allocator();
        let tables = Variables::of(alloc, self.nodes.items(), node as usize)?;
        let names = names_from(alloc, row(&tables.free, node))?;
        Ok(Row::from_vec(names))
    }
}
