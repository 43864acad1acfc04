//! Bodies by number that are made one after another, as a loop with a work list makes them. No code.
//!
//! It stands on `cps_ir` and `cps_free`, on `contract_round` and `contract_laws` for counts of names, and on what these stand on. Its main contract: `grows`: where a body takes new numbers for those that come to stand in it, the bodies make one tree at each moment.
#![tactic(auto)]

ghost use Rattle.contract_rows.specs.Rows.{Begins, Grows, PromisesHold};

/// One body in which none stands is a tree.
pub fn begins()
    ensures { Begins }
{}

/// A body may grow by bodies of new numbers, which are empty.
pub fn grows()
    ensures { Grows }
{}

/// Where each body makes what is promised of it from what is promised of those that stand in it, its tree is what is promised.
pub fn promises_hold()
    ensures { PromisesHold }
{}
