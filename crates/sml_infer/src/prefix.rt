//! Inference of a prefix of a program.

ghost use Rattle.std.specs.Prelude.{◌≡◌, ◌<◌, ◌≤◌, length, IsTrue, IfOk, OnOk};
ghost use Rattle.std.specs.List.{AllByRecursion};
ghost use Rattle.sml_tree.specs.BareParts.{IsNumbered};
ghost use Rattle.sml_types.specs.Typing.{Typing, IsTypingBelow};
ghost use Rattle.infer_parts.specs.Plain.{IsPlainTable};
ghost use Rattle.infer_tables.specs.Declare.{IsUntypable};
ghost use Rattle.infer_laws.specs.Cited.{node_types};
ghost use Rattle.infer_scopes.specs.Prefix.{IsPrefix};
ghost use Rattle.infer_scopes.specs.Scopes.{contexts_of};
ghost use Rattle.infer_checks.specs.Checked.{IsChecked};
ghost use Rattle.sml_infer.specs.Going.{now, IsGoing};
ghost use Rattle.sml_infer.specs.Begun.{IsGoodPrefix, AreTypesBelow};
ghost use Rattle.sml_infer.specs.Below.{IsBelow};

use crate::ask::types_there;
use crate::below::Below;
use crate::cited::cited_types;
use crate::inference::Inference;
use crate::passes::run;
use crate::search::node_count;
use crate::start::begin;
use infer_checks::check;
use infer_scopes::is_prefix;
use infer_state::{Declared, Failure};
use infer_tables::check_types;
use infer_tables::declare::{Prepared, declare};
use sml_tree::{Bare, Node};
use sml_unify::resolve::Rename;
use smlc_base::NoMemory;
use std::alloc::Global;

// Checks that the nodes below `count` can be inferred by themselves. `end` is the number of all nodes.
fn check_prefix(alloc: Global, bare: &Bare, count: u32, end: u32) -> Result<(), NoMemory>
    requires { end ≡ length bare.now.nodes }
    ensures { OnOk result (IsGoodPrefix bare.now count) }
{
    check_types(alloc, bare)?;
    let good = is_prefix(alloc, bare, count)?;
    if count > end || !good {
        return Err(NoMemory);
    }
    Ok(())
}

fn are_all_below(limit: u32, nodes: &[Node]) -> bool
    ensures { IsTrue result → AllByRecursion (λ n. AllByRecursion (λ j. j < limit) (node_types n)) nodes.now }
{
    nodes.iter().all(|node| types_there(limit, node))
}

// Whether the written types of the nodes below `count` stand below a number.
fn are_types_below(bare: &Bare, limit: u32, count: u32) -> bool
    requires { count ≤ length bare.now.nodes }
    ensures { IsTrue result → AreTypesBelow bare.now limit count }
{
    are_all_below(limit, &bare.nodes.items()[..count as usize])
}

// What is checked at the end: the explicit type variables that come in the place of others.
fn finish(
    alloc: Global,
    bare: &Bare,
    declared: &Declared,
    plain: &[bool],
    work: &Inference,
) -> Result<Vec<Rename>, Failure>
    requires numbered { IsNumbered bare.now.nodes }
    requires prefix { IsPrefix bare.now.nodes work.now.count }
    requires plain { IsPlainTable bare.now.nodes plain.now }
    requires going { IsGoing bare.now work.now.count declared.now (now work.now) work.now.count work.now.count (length bare.now.nodes) }
    ensures checked { IfOk result (λ renames. IsChecked bare.now declared.now (contexts_of work.now.scopes) work.now.settled.items work.now.general.items work.now.unknowns work.now.count renames.items) }
    ensures refused { IsUntypable result ((t : Typing) → IsTypingBelow bare.now t work.now.count → ⊥) }
{
    check(
        alloc,
        bare,
        declared,
        &work.scopes,
        plain,
        &work.settled,
        &work.general,
        &work.unknowns,
        work.count,
    )
}

/// Infers the nodes below `count`. `plain` says which nodes are non-expansive.
///
/// # Errors
///
/// `Untypable` where these nodes have no typing.
pub(crate) fn infer_below(
    alloc: Global,
    bare: &Bare,
    plain: &[bool],
    count: u32,
) -> Result<Below, Failure>
    requires plain { IsPlainTable bare.now.nodes plain.now }
    ensures ok { IfOk result (IsBelow bare.now count) }
    ensures refused { IsUntypable result ((t : Typing) → IsTypingBelow bare.now t count → ⊥) }
{
    let end = node_count(bare)?;
    check_prefix(alloc, bare, count, end)?;
    let Prepared { declared, unknowns } = match declare(alloc, bare, count) {
        Ok(prepared) => prepared,
        Err(failed) => return Err(failed),
    };
    let limit = cited_types(bare, &declared)?;
    let mut work = begin(alloc, bare, count, unknowns)?;
    match run(alloc, bare, &declared, plain, limit, end, &mut work) {
        Ok(()) => {}
        Err(failed) => return Err(failed),
    }
    if work.settled.len() != bare.names.len() || !are_types_below(bare, limit, count) {
        return Err(Failure::NoMemory);
    }
    match finish(alloc, bare, &declared, plain, &work) {
        Ok(renames) => Ok(Below {
            declared,
            work,
            renames,
        }),
        Err(failed) => Err(failed),
    }
}
