//! The points of a program, each with how many values are held there.
//!
//! They are found by a walk over the tree from its root, with a list of the parts that are still to be walked, the next one last.

ghost use Rattle.std.specs.Prelude.{◌≡◌, ◌++◌, [], ◌∷◌, List, ℕ, length, reverse, map, IfOk, OnOk, Option};
ghost use Rattle.smlc_base.specs.declared.point.Point.{Point};
ghost use Rattle.sml_tree.specs.declared.points.Context.{Context};
ghost use Rattle.sml_tree.specs.declared.points.Part.{Part};
ghost use Rattle.sml_tree.specs.Sets.{row_at, union, without};
ghost use Rattle.sml_tree.specs.BareParts.{IsNumbered};
ghost use Rattle.sml_tree.specs.Free.{free_fields, free_rest};
ghost use Rattle.sml_tree.specs.Points.{awaited_spots, inside, own_spots, field_parts, right_parts, rule_parts, function_parts, parts_in, spots};

use crate::bare::{Binding, Field, Node, RecBinding, Rule};
use crate::free::{Variables, of_rules, row};
use crate::sets::{both, remove_all};
use smlc_base::{NoMemory, Point, PointKind, Row};
use std::alloc::Global;

/// A point, how many values its closure or frame holds, and the point of the nearest frame around it in the same
/// function body. A frame of a `handle` is named by its `Caught`.
#[derive(Clone, Copy)]
pub struct Spot {
    pub point: Point,
    pub held: usize,
    pub outer: Option<Point>,
}

/// How a node stands in the node that it is a part of, with the nearest frame around it in the same function body.
#[derive(Clone, Copy)]
pub enum Context {
    /// A frame that holds so many values awaits its value.
    Awaited(usize, Option<Point>),
    /// No frame of its own awaits it.
    Plain(Option<Point>),
    /// It is a declaration before a node.
    Before(u32, Option<Point>),
}

/// A part of a node, and how it stands there.
#[derive(Clone, Copy)]
pub struct Part {
    pub node: u32,
    pub context: Context,
}

// The nearest frame around the parts of a node.
fn frame_inside(node: u32, context: Context) -> Option<Point>
    ensures { result ≡ inside node context }
{
    match context {
        Context::Awaited(_, _) => Some(Point {
            node,
            kind: PointKind::Ret,
        }),
        Context::Plain(outer) => outer,
        Context::Before(_, outer) => outer,
    }
}

// The frame that awaits a node.
fn add_awaited(found: &mut Vec<Spot>, node: u32, context: Context) -> Result<(), NoMemory>
    ensures { OnOk result (found.new.items ≡ found.old.items ++ awaited_spots node context) }
{
    if let Context::Awaited(held, outer) = context {
        let point = Point {
            node,
            kind: PointKind::Ret,
        };
        found.push(Spot { point, held, outer })?;
    }
    Ok(())
}

// The points of a node itself.
fn add_own(
    alloc: Global,
    found: &mut Vec<Spot>,
    i: u32,
    node: &Node,
    context: Context,
    bound: &[Row<u32>],
    free: &[Row<u32>],
) -> Result<(), NoMemory>
    ensures { OnOk result (found.new.items ≡ found.old.items ++ own_spots (row_at bound.now) (row_at free.now) i node.now context) }
{
    match node {
        Node::Fn(rules) => {
            let held = of_rules(alloc, rules.items(), bound, free)?.len();
            let point = Point {
                node: i,
                kind: PointKind::Fn,
            };
            found.push(Spot {
                point,
                held,
                outer: None,
            })?;
            add_awaited(found, i, context)
        }
        Node::Handle(_, rules) => {
            let held = of_rules(alloc, rules.items(), bound, free)?.len();
            let outer = frame_inside(i, context);
            add_awaited(found, i, context)?;
            let caught = Point {
                node: i,
                kind: PointKind::Caught,
            };
            found.push(Spot {
                point: caught,
                held,
                outer,
            })?;
            let popped = Point {
                node: i,
                kind: PointKind::Popped,
            };
            found.push(Spot {
                point: popped,
                held,
                outer,
            })?;
            Ok(())
        }
        _ => add_awaited(found, i, context),
    }
}

fn push(work: &mut Vec<Part>, node: u32, context: Context) -> Result<(), NoMemory>
    ensures { OnOk result (work.new.items ≡ work.old.items ++ record { node = node; context = context } ∷ []) }
{
    work.push(Part { node, context })?;
    Ok(())
}

fn push_fields(
    alloc: Global,
    work: &mut Vec<Part>,
    fields: &[Field],
    outer: Option<Point>,
    free: &[Row<u32>],
) -> Result<(), NoMemory>
    ensures { OnOk result (work.new.items ≡ work.old.items ++ reverse (field_parts (row_at free.now) 0 fields.now outer)) }
{
    let mut later = Vec::new(alloc);
    let mut i = fields.len();
    while i > 0 {
        i -= 1;
        push(
            work,
            fields[i].node,
            Context::Awaited(i + later.len(), outer),
        )?;
        later = both(alloc, row(free, fields[i].node), &later)?;
    }
    Ok(())
}

// How many variables are used by patterns, by right sides, and by a body behind them that they bind these names in.
fn held_before(
    alloc: Global,
    patterns: &[u32],
    rights: &[u32],
    names: &[u32],
    body: &[u32],
) -> Result<usize, NoMemory>
    ensures { IfOk result (λ n. n ≡ length (union patterns.now (union rights.now (without body.now names.now)))) }
{
    let rest = remove_all(alloc, body, names)?;
    let behind = both(alloc, rights, &rest)?;
    let all = both(alloc, patterns, &behind)?;
    Ok(all.len())
}

fn push_rights(
    alloc: Global,
    work: &mut Vec<Part>,
    bindings: &[Binding],
    body: u32,
    outer: Option<Point>,
    bound: &[Row<u32>],
    free: &[Row<u32>],
) -> Result<(), NoMemory>
    ensures { OnOk result (work.new.items ≡ work.old.items ++ reverse (right_parts (row_at bound.now) (row_at free.now) bindings.now body outer)) }
{
    let mut patterns = Vec::new(alloc);
    let mut rights = Vec::new(alloc);
    let mut names = Vec::new(alloc);
    let mut i = bindings.len();
    while i > 0 {
        i -= 1;
        patterns = both(alloc, row(free, bindings[i].pat), &patterns)?;
        names = both(alloc, row(bound, bindings[i].pat), &names)?;
        let held = held_before(alloc, &patterns, &rights, &names, row(free, body))?;
        push(work, bindings[i].right, Context::Awaited(held, outer))?;
        rights = both(alloc, row(free, bindings[i].right), &rights)?;
    }
    Ok(())
}

fn push_rules(work: &mut Vec<Part>, rules: &[Rule], outer: Option<Point>) -> Result<(), NoMemory>
    ensures { OnOk result (work.new.items ≡ work.old.items ++ reverse (rule_parts rules.now outer)) }
{
    let mut i = rules.len();
    while i > 0 {
        i -= 1;
        push(work, rules[i].body, Context::Plain(outer))?;
    }
    Ok(())
}

fn push_functions(work: &mut Vec<Part>, bindings: &[RecBinding]) -> Result<(), NoMemory>
    ensures { OnOk result (work.new.items ≡ work.old.items ++ reverse (function_parts bindings.now)) }
{
    let mut i = bindings.len();
    while i > 0 {
        i -= 1;
        push(work, bindings[i].right, Context::Plain(None))?;
    }
    Ok(())
}

// The parts of a node, the first one last.
fn push_parts(
    alloc: Global,
    work: &mut Vec<Part>,
    i: u32,
    node: &Node,
    context: Context,
    bound: &[Row<u32>],
    free: &[Row<u32>],
) -> Result<(), NoMemory>
    ensures { OnOk result (work.new.items ≡ work.old.items ++ reverse (parts_in (row_at bound.now) (row_at free.now) i node.now context)) }
{
    let around = frame_inside(i, context);
    match node {
        Node::Record(fields) => push_fields(alloc, work, fields.items(), around, free),
        Node::App(f, a) => {
            push(work, *a, Context::Awaited(1, around))?;
            push(work, *f, Context::Awaited(row(free, *a).len(), around))
        }
        Node::Case(e, rules) => {
            let held = of_rules(alloc, rules.items(), bound, free)?.len();
            push_rules(work, rules.items(), around)?;
            push(work, *e, Context::Awaited(held, around))
        }
        Node::Fn(rules) => push_rules(work, rules.items(), None),
        Node::Raise(e) => push(work, *e, Context::Awaited(0, around)),
        Node::Handle(e, rules) => {
            push_rules(work, rules.items(), around)?;
            let caught = Point {
                node: i,
                kind: PointKind::Caught,
            };
            push(work, *e, Context::Plain(Some(caught)))
        }
        Node::Typed(e, _) => push(work, *e, Context::Plain(around)),
        Node::Let(d, e) => {
            push(work, *e, Context::Plain(around))?;
            push(work, *d, Context::Before(*e, around))
        }
        Node::Val(_, bindings) => match context {
            Context::Before(body, outer) => {
                push_rights(alloc, work, bindings.items(), body, outer, bound, free)
            }
            Context::Awaited(_, _) => Ok(()),
            Context::Plain(_) => Ok(()),
        },
        Node::ValRec(_, bindings) => push_functions(work, bindings.items()),
        _ => Ok(()),
    }
}

/// The points of a tree but that of the comparison, in the order of their nodes and kinds.
pub fn points_of(alloc: Global, nodes: &[Node]) -> Result<Vec<Spot>, NoMemory>
    requires { IsNumbered nodes.now }
    ensures { IfOk result (λ v. v.items ≡ spots nodes.now) }
{
    let variables = Variables::of(alloc, nodes, 0)?;
    let mut found = Vec::new(alloc);
    let mut work = Vec::new(alloc);
    push(&mut work, 0, Context::Plain(None))?;
    while let Some(part) = work.pop() {
        let at = part.node as usize;
        if at < nodes.len() {
            let (i, node, context) = (part.node, &nodes[at], part.context);
            add_own(
                alloc,
                &mut found,
                i,
                node,
                context,
                &variables.bound,
                &variables.free,
            )?;
            push_parts(
                alloc,
                &mut work,
                i,
                node,
                context,
                &variables.bound,
                &variables.free,
            )?;
        }
    }
    Ok(found)
}
