//! The rule of one node.

ghost use Rattle.std.specs.Prelude.{◌≡◌, ℕ, Some, slice_get};
ghost use Rattle.sml_tree.specs.declared.bare.Node.{Node};
ghost use Rattle.sml_types.specs.Poly.{Poly};
ghost use Rattle.sml_types.specs.Library.{name_types};
ghost use Rattle.infer_parts.specs.Written.{AreAbbreviations};
ghost use Rattle.infer_state.specs.Variables.{AreLaidOut};
ghost use Rattle.infer_state.specs.Steps.{IsState, IsStep};
ghost use Rattle.infer_state.specs.Rules.{IsRule};
ghost use Rattle.infer_state.specs.Fits.{AreThere, settled_at};
ghost use Rattle.infer_nodes.specs.Good.{AreTypesGood, AreDeclaredIn};

use crate::dispatch::pose;
use crate::equal::equal_all;
use infer_state::{Declared, Failure, Settled, Unknowns};
use sml_tree::Bare;
use std::alloc::Global;

/// Makes the rule of a node hold.
///
/// # Errors
///
/// `Untypable` where no solution meets the rule.
pub fn ask(
    alloc: Global,
    bare: &Bare,
    declared: &Declared,
    settled: &[Option<Settled>],
    unknowns: &mut Unknowns,
    node: u32,
) -> Result<(), Failure>
    requires state { IsState declared.now.tables.names unknowns.old }
    requires laid { AreLaidOut bare.now unknowns.old.types declared.now.starts }
    requires settled { AreThere unknowns.old.types settled.now }
    requires types { AreTypesGood bare.now }
    requires declared { AreDeclaredIn unknowns.old.types declared.now }
    ensures step { (abbreviations : ℕ → Poly) → AreAbbreviations unknowns.old.types declared.now.abbreviations abbreviations → (n : Node) → slice_get bare.now.nodes node ≡ Some n → IsStep declared.now.tables.names (λ f. IsRule bare.now (name_types unknowns.old.types declared.now.tables.names) declared.now.tables.names abbreviations (settled_at unknowns.old.types settled.now) f node n) unknowns.old unknowns.new result }
{
    // Opens the invariant of the types.
    let _ = &unknowns.types.forms;
    match pose(
        alloc,
        bare,
        declared,
        settled,
        &mut unknowns.types,
        &mut unknowns.next,
        node,
    ) {
        Ok(pairs) => equal_all(unknowns, &declared.tables, pairs.items()),
        Err(failure) => Err(failure),
    }
}
