//! All checks.

ghost use Rattle.std.specs.Prelude.{IfOk};
ghost use Rattle.sml_tree.specs.BareParts.{IsNumbered};
ghost use Rattle.infer_parts.specs.Plain.{IsPlainTable};
ghost use Rattle.infer_state.specs.Steps.{IsState};
ghost use Rattle.infer_state.specs.Variables.{AreLaidOut};
ghost use Rattle.infer_state.specs.Fits.{AreThere, AreBodies, settled_at};
ghost use Rattle.infer_scopes.specs.Prefix.{IsPrefix};
ghost use Rattle.infer_scopes.specs.Scopes.{contexts_of, AllOpen};
ghost use Rattle.infer_closing.specs.Open.{closed_at};
ghost use Rattle.infer_checks.specs.Checked.{AreEnding, AreFinishedBelow, IsChecked, IsUnchecked, IsRefused};

use crate::bound::are_settled_below;
use crate::explicit::renames;
use crate::node::check_node;
use crate::proper::are_proper;
use infer_scopes::Scopes;
use infer_state::{Declared, Failure, Settled, Unknowns};
use sml_tree::Bare;
use sml_types::TyVar;
use sml_unify::resolve::Rename;
use smlc_base::Row;
use std::alloc::Global;

// Checks what a typing asks of the nodes below `count` beside their rules.
fn check_nodes(
    alloc: Global,
    bare: &Bare,
    declared: &Declared,
    scopes: &Scopes,
    plain: &[bool],
    settled: &[Option<Settled>],
    general: &[Option<Row<TyVar>>],
    unknowns: &Unknowns,
    renames: &[Rename],
    count: u32,
) -> Result<(), Failure>
    requires state { IsState declared.now.tables.names unknowns.now }
    requires laid { AreLaidOut bare.now unknowns.now.types declared.now.starts }
    requires there { AreThere unknowns.now.types settled.now }
    requires bodies { AreBodies bare.now unknowns.now (settled_at unknowns.now.types settled.now) }
    requires numbered { IsNumbered bare.now.nodes }
    requires prefix { IsPrefix bare.now.nodes count }
    requires plain { IsPlainTable bare.now.nodes plain.now }
    requires closed { AllOpen (closed_at (settled_at unknowns.now.types settled.now)) scopes.now }
    requires ending { AreEnding bare.now declared.now (contexts_of scopes.now) settled.now general.now unknowns.now renames.now }
    ensures finished { IfOk result (λ _. AreFinishedBelow bare.now declared.now (contexts_of scopes.now) settled.now general.now unknowns.now renames.now count) }
    ensures refused { IsRefused result (IsUnchecked bare.now declared.now (contexts_of scopes.now) settled.now general.now unknowns.now count) }
{
    'nodes: for node in 0..count {
        match check_node(
            alloc, bare, declared, scopes, plain, settled, general, unknowns, renames, node, count,
        ) {
            Ok(()) => {}
            Err(failed) => return Err(failed),
        }
    }
    Ok(())
}

/// Checks what a typing asks beside the rules of its nodes, of the nodes below `count`. `plain` says which nodes are non-expansive, and `general` what the right sides generalise. The answer has the explicit type variables that come in the place of others.
///
/// # Errors
///
/// `Untypable` where no typing of these nodes goes with what was inferred. `NoMemory`, also where something has not been inferred.
pub fn check(
    alloc: Global,
    bare: &Bare,
    declared: &Declared,
    scopes: &Scopes,
    plain: &[bool],
    settled: &[Option<Settled>],
    general: &[Option<Row<TyVar>>],
    unknowns: &Unknowns,
    count: u32,
) -> Result<Vec<Rename>, Failure>
    requires state { IsState declared.now.tables.names unknowns.now }
    requires laid { AreLaidOut bare.now unknowns.now.types declared.now.starts }
    requires there { AreThere unknowns.now.types settled.now }
    requires bodies { AreBodies bare.now unknowns.now (settled_at unknowns.now.types settled.now) }
    requires numbered { IsNumbered bare.now.nodes }
    requires prefix { IsPrefix bare.now.nodes count }
    requires plain { IsPlainTable bare.now.nodes plain.now }
    requires closed { AllOpen (closed_at (settled_at unknowns.now.types settled.now)) scopes.now }
    ensures checked { IfOk result (λ renames. IsChecked bare.now declared.now (contexts_of scopes.now) settled.now general.now unknowns.now count renames.items) }
    ensures refused { IsRefused result (IsUnchecked bare.now declared.now (contexts_of scopes.now) settled.now general.now unknowns.now count) }
{
    // What holds of all forms.
    let _ = unknowns.types.forms();
    let Some(renames) = renames(alloc, bare, &declared.starts, unknowns)? else {
        return Err(Failure::Untypable);
    };
    let items = renames.items();
    are_proper(alloc, unknowns, items, settled)?;
    if !are_settled_below(bare, settled, count) {
        return Err(Failure::NoMemory);
    }
    match check_nodes(
        alloc, bare, declared, scopes, plain, settled, general, unknowns, items, count,
    ) {
        Ok(()) => Ok(renames.into_vec()),
        Err(failed) => Err(failed),
    }
}
