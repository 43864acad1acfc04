//! Trees of bare nodes as a list of marks, and the numbered nodes that it spells.

ghost use Rattle.std.specs.Prelude.{◌≡◌, IfOk, OnOk};
ghost use Rattle.sml_expansion.specs.Forests.{Forest, numbered, places};
ghost use Rattle.sml_expansion.specs.Marks.{marks};
ghost use Rattle.sml_expansion.specs.Linking.{opened, opened_at, closed, shown};

use crate::number::number;
use crate::parts::with_parts;
use sml_tree::bare::Node;
use smlc_base::{NoMemory, Place, Row};
use std::alloc::Global;

/// Where a node's parts begin, or the node behind them, which doesn't name them yet.
#[derive(Drop)]
pub enum Mark {
    Open,
    Close(Node, Place),
}

/// A node whose parts are read, with the roots behind it, the last first.
#[derive(Drop)]
struct Frame {
    node: Node,
    place: Place,
    behind: Vec<u32>,
}

/// How many nodes marks spell.
fn opened(marks: &[Mark]) -> usize
    ensures { result ≡ opened marks.now }
{
    let mut count = 0;
    for mark in marks {
        if let Mark::Open = mark {
            count += 1;
        }
    }
    count
}

/// The nodes of the trees that these marks spell, with their places.
pub fn link(alloc: Global, spelling: Row<Mark>) -> Result<(Row<Node>, Row<Place>), NoMemory>
    ensures nodes { IfOk result (λ tree. (f : Forest) → spelling ≡ marks f → tree.0 ≡ numbered 0 f) }
    ensures places { IfOk result (λ tree. (f : Forest) → spelling ≡ marks f → tree.1 ≡ places f) }
{
    let mut left = opened(spelling.items());
    let mut spelling = spelling.into_vec();
    let mut linked = Linked {
        frames: Vec::new(alloc),
        roots: Vec::new(alloc),
        nodes: Vec::new(alloc),
        places: Vec::new(alloc),
    };
    while let Some(mark) = spelling.pop() {
        match mark {
            Mark::Close(node, place) => linked.close(alloc, node, place)?,
            Mark::Open => {
                left = left.saturating_sub(1);
                linked.open(alloc, number(left)?)?;
            }
        }
    }
    let Linked { nodes, places, .. } = linked;
    let mut nodes = nodes;
    let mut places = places;
    nodes.reverse();
    places.reverse();
    Ok((Row::from_vec(nodes), Row::from_vec(places)))
}

/// What the marks that were read come to, the last first.
#[derive(Drop)]
struct Linked {
    frames: Vec<Frame>,
    roots: Vec<u32>,
    nodes: Vec<Node>,
    places: Vec<Place>,
}

impl Linked {
    /// The node behind its parts.
    fn close(&mut self, alloc: Global, node: Node, place: Place) -> Result<(), NoMemory>
        ensures { OnOk result (shown self.new ≡ closed node place (shown self.old)) }
    {
        let behind = std::mem::replace(&mut self.roots, Vec::new(alloc));
        self.frames.push(Frame {
            node,
            place,
            behind,
        })?;
        Ok(())
    }

    /// The parts of the node of this number begin.
    fn open(&mut self, alloc: Global, number: u32) -> Result<(), NoMemory>
        ensures { OnOk result (shown self.new ≡ opened_at number (shown self.old)) }
    {
        if let Some(frame) = self.frames.pop() {
            self.roots.reverse();
            self.nodes
                .push(with_parts(alloc, frame.node, &self.roots)?)?;
            self.places.push(frame.place)?;
            self.roots = frame.behind;
            self.roots.push(number)?;
        }
        Ok(())
    }
}
