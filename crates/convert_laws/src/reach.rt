//! How far a frame's words go.

use smlc_base::Point;

/// The words of a frame, with those of one around it that is never decided itself, and the frame around both.
#[derive(Clone, Copy)]
pub struct Reach {
    pub words: u32,
    pub outer: Option<Point>,
}
