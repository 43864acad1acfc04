//! Marks and their numbers, names and labels that stand twice, and the order of labels.

use sml_expansion::Made;
use sml_expansion::labels::slots;
use sml_expansion::mark::{Mark, link};
use sml_expansion::once::{idents_once, labels_once};
use sml_expansion::refusals::keep;
use sml_expansion::scope::Ident;
use sml_expansion::scoped::Scoped;
use sml_expansion::starts::starts;
use sml_tree::TreeNode;
use sml_tree::bare::{Lab, Node};
use smlc_base::{NoMemory, Place, Refusal, Row};
use std::alloc::Global;
use std::test::Fail;

fn place(col: u32) -> Place {
    Place {
        file: 1,
        line: 1,
        col,
    }
}

// The marks of an application of `raise 1` to 2.
fn marks(alloc: Global) -> Result<Row<Mark>, NoMemory> {
    let mut marks = Row::new(alloc);
    marks.push(Mark::Open)?;
    marks.push(Mark::Open)?;
    marks.push(Mark::Open)?;
    marks.push(Mark::Close(Node::Int(1), place(3)))?;
    marks.push(Mark::Close(Node::Raise(0), place(2)))?;
    marks.push(Mark::Open)?;
    marks.push(Mark::Close(Node::Int(2), place(4)))?;
    marks.push(Mark::Close(Node::App(0, 0), place(1)))?;
    Ok(marks)
}

// The parts of the first node, where it is an application.
fn applied(nodes: &[Node]) -> Option<(u32, u32)> {
    match nodes.first() {
        Some(Node::App(function, argument)) => Some((*function, *argument)),
        _ => None,
    }
}

#[test]
fn links_marks(rt: HostRuntime) -> Result<(), Fail> {
    let marks = marks(rt.alloc())?;
    let (nodes, places) = link(rt.alloc(), marks)?;
    assert_eq!(rt; nodes.len(), 4);
    assert_eq!(rt; applied(nodes.items()), Some((1, 3)));
    assert!(rt; places.items() == [place(1), place(2), place(3), place(4)].as_slice());
    Ok(())
}

#[test]
fn finds_starts(rt: HostRuntime) -> Result<(), Fail> {
    let nodes = [
        TreeNode::Wild,
        TreeNode::Int(1),
        TreeNode::Int(2),
        TreeNode::Apply,
        TreeNode::ValBind,
    ];
    let starts = starts(rt.alloc(), &nodes)?;
    assert_eq!(rt; starts.as_slice(), [0, 1, 2, 1, 0].as_slice());
    Ok(())
}

#[test]
fn keeps_the_least(rt: HostRuntime) -> Result<(), Fail> {
    let first = keep(None, Refusal::BadBinding(place(5)));
    let second = keep(first, Refusal::BadBinding(place(7)));
    let third = keep(second, Refusal::Unbound(place(5)));
    assert_eq!(rt; third, Some(Refusal::Unbound(place(5))));
    Ok(())
}

#[test]
fn takes_bindings_back(rt: HostRuntime) -> Result<(), Fail> {
    let mut scoped = Scoped::new(rt.alloc());
    scoped.bind(7, 3)?;
    scoped.bind(7, 4)?;
    scoped.bind(2, 5)?;
    assert_eq!(rt; scoped.len(), 3);
    scoped.cut(1, 2)?;
    assert_eq!(rt; scoped.get(7), Some(3));
    assert_eq!(rt; scoped.get(2), Some(5));
    scoped.undo_to(0);
    assert_eq!(rt; scoped.get(7), None);
    Ok(())
}

fn ident(key: u32, col: u32) -> Ident {
    Ident {
        key,
        long: false,
        place: place(col),
    }
}

#[test]
fn finds_the_first_double(rt: HostRuntime) -> Result<(), Fail> {
    let mut made = Made::new(rt.alloc());
    idents_once(
        &mut made,
        &[ident(1, 1), ident(2, 2), ident(1, 5), ident(2, 9)],
    )?;
    assert_eq!(rt; made.refusal, Some(Refusal::BadBinding(place(5))));
    Ok(())
}

#[test]
fn orders_labels(rt: HostRuntime) -> Result<(), Fail> {
    let mut labs = Vec::new(rt.alloc());
    let text = Vec::from_slice(rt.alloc(), b"a")?;
    labs.push((Lab::Text(Row::from_vec(text)), place(1)))?;
    labs.push((Lab::Num(2), place(2)))?;
    labs.push((Lab::Num(1), place(3)))?;
    let slots = slots(rt.alloc(), &labs)?;
    assert_eq!(rt; slots.as_slice(), [2, 1, 0].as_slice());
    let mut made = Made::new(rt.alloc());
    labels_once(&mut made, &labs)?;
    assert_eq!(rt; made.refusal, None);
    Ok(())
}
