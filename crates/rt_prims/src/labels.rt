//! The labels of routines.

ghost use Rattle.std.specs.Prelude.{◌≡◌, ◌≤◌, ◌+◌};
ghost use Rattle.rt_prims.specs.Lines.{labels};
ghost use Rattle.rt_prims.specs.Text.{labels_from};

use crate::line::Routine;

/// The labels of the routines that are called, and the first of all labels that routines use: those of the routines in the order of
/// the text, and behind them those of the data, which the caller binds.
#[derive(Clone, Copy)]
pub struct RoutineLabels {
    pub concat: u32,
    pub size: u32,
    pub sub: u32,
    pub substring: u32,
    pub str_of: u32,
    pub implode: u32,
    pub compare: u32,
    pub print: u32,
    pub input_line: u32,
    pub equal: u32,
    pub turn: u32,
    pub first: u32,
}

impl RoutineLabels {
    /// The labels, where this is the first of all.
    pub(crate) fn from_first(first: u32) -> RoutineLabels
        requires { first + labels ≤ 4294967296 }
        ensures { result ≡ labels_from first }
    {
        RoutineLabels {
            concat: first + Routine::Concat.number(),
            size: first + Routine::Size.number(),
            sub: first + Routine::Sub.number(),
            substring: first + Routine::Substring.number(),
            str_of: first + Routine::StrOf.number(),
            implode: first + Routine::Implode.number(),
            compare: first + Routine::Compare.number(),
            print: first + Routine::Print.number(),
            input_line: first + Routine::InputLine.number(),
            equal: first + Routine::Equal.number(),
            turn: first + Routine::Turn.number(),
            first,
        }
    }
}
