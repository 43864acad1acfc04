//! What a meter tells in the end.

use rv_machine::End;
use smlc_base::Label;

/// How the run ended, how many entries it had, how many words of the arena are used, and the greatest words of a measured entry, with the
/// label and the time of the first entry that has it. With no measured entry these are 0.
#[derive(Clone, Copy, Debug, PartialEq, Eq)]
pub struct MeterEnd {
    pub end: End,
    pub entries: u64,
    pub used: u64,
    pub peak: u64,
    pub peak_label: Label,
    pub peak_nth: u64,
}
