//! The plan of a program: what its closures have, against what the source has.

use lifetime_users::ClassRows;
use smlc_base::{Place, Point, Row};

/// A label: its point and place, the words of its closure (0 for a closed function), the words of the class records that this names, and the words of the source.
#[derive(Clone, Copy)]
pub struct LabelPlan {
    pub point: Point,
    pub place: Place,
    pub words: u32,
    pub records: u32,
    pub source: u32,
}

/// The labels in order, the classes, how many times the words of the source are enough for those of the program, and the words that one path through
/// a body spills.
#[derive(Drop)]
pub struct Plan {
    pub labels: Row<LabelPlan>,
    pub classes: ClassRows,
    pub factor: u32,
    pub spill: u32,
}
