//! Points of a program: where a function is entered, a value comes back to a frame, or a packet is caught.

use crate::place::Place;

/// The number of an entry of the emitted code.
#[derive(Clone, Copy, PartialEq, Eq, PartialOrd, Ord, Debug)]
pub struct Label(pub u32);

/// What happens at a point.
#[derive(Clone, Copy, PartialEq, Eq, PartialOrd, Ord, Debug)]
pub enum PointKind {
    /// A closure is applied.
    Fn,
    /// A value comes back to a frame.
    Ret,
    /// A packet is raised onto the frame of a `handle`.
    Caught,
    /// A value comes back to the frame of a `handle`.
    Popped,
    /// A turn of the comparison of two values.
    Eq,
}

/// A point: a node of the bare tree, and what happens there. Points are ordered by node, then by kind.
#[derive(Clone, Copy, PartialEq, Eq, PartialOrd, Ord, Debug)]
pub struct Point {
    pub node: u32,
    pub kind: PointKind,
}

/// A point, the place of its node, the source words of its closure or frame, and the point of the nearest frame
/// that encloses it in the same function body. A frame of a `handle` is named by its `Caught`.
#[derive(Clone, Copy, PartialEq, Eq, Debug)]
pub struct Site {
    pub point: Point,
    pub place: Place,
    pub words: u32,
    pub outer: Option<Point>,
}
