//! The turn of a node.

ghost use Rattle.std.specs.Prelude.{◌≡◌, ◌<◌, ◌≤◌, suc, IfOk, slice_get};
ghost use Rattle.sml_tree.specs.BareParts.{IsNumbered};
ghost use Rattle.sml_types.specs.Typing.{Typing, IsTypingBelow};
ghost use Rattle.infer_parts.specs.Plain.{IsPlainTable};
ghost use Rattle.infer_tables.specs.Declare.{IsUntypable};
ghost use Rattle.infer_scopes.specs.Prefix.{IsPrefix};
ghost use Rattle.infer_nodes.specs.Good.{AreTypesGood};
ghost use Rattle.sml_infer.specs.Going.{now, joined_number, CitesBelow, IsGoing, IsEntered, Keeps};

use crate::ask::ask_next;
use crate::inference::Inference;
use crate::note::note;
use infer_closing::{close, settle_matched};
use infer_state::{Declared, Failure};
use sml_tree::Bare;
use smlc_base::NoMemory;
use std::alloc::Global;

// The `let` behind whose declaration a node stands.
fn let_before(behind: &[Option<u32>], node: u32) -> Option<u32>
    ensures { result ≡ joined_number (slice_get behind.now node) }
{
    match behind.get(node as usize) {
        Some(found) => *found,
        None => None,
    }
}

/// Comes to a node: the declaration that it stands behind is closed, and the node gets its context.
pub(crate) fn reach(
    alloc: Global,
    bare: &Bare,
    declared: &Declared,
    plain: &[bool],
    work: &mut Inference,
    node: u32,
) -> Result<(), NoMemory>
    requires numbered { IsNumbered bare.now.nodes }
    requires plain { IsPlainTable bare.now.nodes plain.now }
    requires prefix { IsPrefix bare.now.nodes work.old.count }
    requires within { work.old.done ≤ work.old.count }
    requires going { IsGoing bare.now work.old.count declared.now (now work.old) work.old.done work.old.done node }
    ensures going { IfOk result (λ _. IsGoing bare.now work.old.count declared.now (now work.new) work.old.done work.old.done (suc node)) }
    ensures kept { IfOk result (λ _. Keeps (now work.old) (now work.new)) }
    ensures count { work.new.count ≡ work.old.count }
    ensures done { work.new.done ≡ work.old.done }
{
    let Some(at) = let_before(&work.behind, node) else {
        return Ok(());
    };
    let left = close(
        alloc,
        bare,
        &work.scopes,
        plain,
        &declared.starts,
        &mut work.settled,
        &mut work.general,
        &mut work.unknowns,
        at,
    )?;
    // Opens the invariant of the types.
    let _ = work.unknowns.types.forms();
    work.scopes.enter_body(alloc, bare, at, &left)
}

// Gives the parts of the next node their contexts.
fn enter(
    alloc: Global,
    bare: &Bare,
    declared: &Declared,
    work: &mut Inference,
) -> Result<(), NoMemory>
    requires numbered { IsNumbered bare.now.nodes }
    requires prefix { IsPrefix bare.now.nodes work.old.count }
    requires within { work.old.done < work.old.count }
    requires going { IsGoing bare.now work.old.count declared.now (now work.old) work.old.done work.old.done (suc work.old.done) }
    ensures going { IfOk result (λ _. IsGoing bare.now work.old.count declared.now (now work.new) work.old.done work.old.done (suc work.old.done)) }
    ensures entered { IfOk result (λ _. IsEntered bare.now (now work.new) work.old.done) }
    ensures kept { IfOk result (λ _. Keeps (now work.old) (now work.new)) }
    ensures count { work.new.count ≡ work.old.count }
    ensures done { work.new.done ≡ work.old.done }
{
    work.scopes.enter(alloc, bare, work.done)
}

// Settles the names of the next node's matches.
fn settle(
    alloc: Global,
    bare: &Bare,
    declared: &Declared,
    work: &mut Inference,
) -> Result<(), NoMemory>
    requires numbered { IsNumbered bare.now.nodes }
    requires prefix { IsPrefix bare.now.nodes work.old.count }
    requires within { work.old.done < work.old.count }
    requires going { IsGoing bare.now work.old.count declared.now (now work.old) work.old.done work.old.done (suc work.old.done) }
    requires entered { IsEntered bare.now (now work.old) work.old.done }
    ensures going { IfOk result (λ _. IsGoing bare.now work.old.count declared.now (now work.new) work.old.done work.old.done (suc work.old.done)) }
    ensures entered { IfOk result (λ _. IsEntered bare.now (now work.new) work.old.done) }
    ensures kept { IfOk result (λ _. Keeps (now work.old) (now work.new)) }
    ensures count { work.new.count ≡ work.old.count }
    ensures done { work.new.done ≡ work.old.done }
{
    settle_matched(
        alloc,
        bare,
        &declared.starts,
        &mut work.settled,
        &work.unknowns,
        work.done,
    )
}

// Closes what stands before the next node, gives its parts their contexts and settles the names of its matches.
fn prepare(
    alloc: Global,
    bare: &Bare,
    declared: &Declared,
    plain: &[bool],
    work: &mut Inference,
) -> Result<(), NoMemory>
    requires numbered { IsNumbered bare.now.nodes }
    requires plain { IsPlainTable bare.now.nodes plain.now }
    requires prefix { IsPrefix bare.now.nodes work.old.count }
    requires within { work.old.done < work.old.count }
    requires going { IsGoing bare.now work.old.count declared.now (now work.old) work.old.done work.old.done work.old.done }
    ensures going { IfOk result (λ _. IsGoing bare.now work.old.count declared.now (now work.new) work.old.done work.old.done (suc work.old.done)) }
    ensures entered { IfOk result (λ _. IsEntered bare.now (now work.new) work.old.done) }
    ensures kept { IfOk result (λ _. Keeps (now work.old) (now work.new)) }
    ensures count { work.new.count ≡ work.old.count }
    ensures done { work.new.done ≡ work.old.done }
{
    let node = work.done;
    reach(alloc, bare, declared, plain, work, node)?;
    enter(alloc, bare, declared, work)?;
    settle(alloc, bare, declared, work)?;
    Ok(())
}

// Notes the next node, whose rule was asked, and goes on behind it.
fn finish(bare: &Bare, declared: &Declared, work: &mut Inference) -> Result<(), NoMemory>
    requires numbered { IsNumbered bare.now.nodes }
    requires within { work.old.done < work.old.count }
    requires going { IsGoing bare.now work.old.count declared.now (now work.old) (suc work.old.done) work.old.done (suc work.old.done) }
    ensures going { IfOk result (λ _. IsGoing bare.now work.old.count declared.now (now work.new) work.new.done work.new.done work.new.done) }
    ensures done { IfOk result (λ _. work.new.done ≡ suc work.old.done) }
    ensures kept { IfOk result (λ _. Keeps (now work.old) (now work.new)) }
    ensures count { work.new.count ≡ work.old.count }
{
    note(bare, declared, work)?;
    work.done += 1;
    Ok(())
}

/// The turn of the next node: what stands before it is closed, it gets its context, and its rule is asked.
///
/// # Errors
///
/// `Untypable` where the nodes that inference is of have no typing.
pub(crate) fn turn(
    alloc: Global,
    bare: &Bare,
    declared: &Declared,
    plain: &[bool],
    limit: u32,
    work: &mut Inference,
) -> Result<(), Failure>
    requires numbered { IsNumbered bare.now.nodes }
    requires plain { IsPlainTable bare.now.nodes plain.now }
    requires prefix { IsPrefix bare.now.nodes work.old.count }
    requires good { AreTypesGood bare.now }
    requires limit { CitesBelow bare.now declared.now limit }
    requires within { work.old.done < work.old.count }
    requires going { IsGoing bare.now work.old.count declared.now (now work.old) work.old.done work.old.done work.old.done }
    ensures going { IfOk result (λ _. IsGoing bare.now work.old.count declared.now (now work.new) work.new.done work.new.done work.new.done) }
    ensures done { IfOk result (λ _. work.new.done ≡ suc work.old.done) }
    ensures count { work.new.count ≡ work.old.count }
    ensures kept { IfOk result (λ _. Keeps (now work.old) (now work.new)) }
    ensures refused { IsUntypable result ((t : Typing) → IsTypingBelow bare.now t work.old.count → ⊥) }
{
    prepare(alloc, bare, declared, plain, work)?;
    match ask_next(alloc, bare, declared, limit, work) {
        Ok(()) => {
            finish(bare, declared, work)?;
            Ok(())
        }
        Err(failure) => Err(failure),
    }
}
