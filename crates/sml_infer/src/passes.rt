//! Inference goes over the nodes.

ghost use Rattle.std.specs.Prelude.{◌≡◌, ◌≤◌, length, IfOk};
ghost use Rattle.sml_tree.specs.BareParts.{IsNumbered};
ghost use Rattle.sml_types.specs.Typing.{Typing, IsTypingBelow};
ghost use Rattle.infer_parts.specs.Plain.{IsPlainTable};
ghost use Rattle.infer_tables.specs.Declare.{IsUntypable};
ghost use Rattle.infer_scopes.specs.Prefix.{IsPrefix};
ghost use Rattle.infer_nodes.specs.Good.{AreTypesGood};
ghost use Rattle.sml_infer.specs.Going.{now, Keeps, CitesBelow, IsGoing};
ghost use Rattle.sml_infer.specs.Begun.{IsGoodPrefix};

use crate::inference::Inference;
use crate::turn::{reach, turn};
use infer_state::{Declared, Failure};
use sml_tree::Bare;
use smlc_base::NoMemory;
use std::alloc::Global;

// The nodes that are left have their turns.
fn go(
    alloc: Global,
    bare: &Bare,
    declared: &Declared,
    plain: &[bool],
    limit: u32,
    work: &mut Inference,
) -> Result<(), Failure>
    requires numbered { IsNumbered bare.now.nodes }
    requires plain { IsPlainTable bare.now.nodes plain.now }
    requires prefix { IsPrefix bare.now.nodes work.old.count }
    requires good { AreTypesGood bare.now }
    requires limit { CitesBelow bare.now declared.now limit }
    requires within { work.old.done ≤ work.old.count }
    requires going { IsGoing bare.now work.old.count declared.now (now work.old) work.old.done work.old.done work.old.done }
    ensures going { IfOk result (λ _. IsGoing bare.now work.old.count declared.now (now work.new) work.old.count work.old.count work.old.count) }
    ensures done { IfOk result (λ _. work.new.done ≡ work.old.count) }
    ensures count { work.new.count ≡ work.old.count }
    ensures kept { IfOk result (λ _. Keeps (now work.old) (now work.new)) }
    ensures refused { IsUntypable result ((t : Typing) → IsTypingBelow bare.now t work.old.count → ⊥) }
{
    'turns: while work.done < work.count {
        match turn(alloc, bare, declared, plain, limit, work) {
            Ok(()) => {}
            Err(failed) => return Err(failed),
        }
    }
    Ok(())
}

// Behind the nodes that are done all nodes that stand behind declarations get their contexts.
fn close_rest(
    alloc: Global,
    bare: &Bare,
    declared: &Declared,
    plain: &[bool],
    end: u32,
    work: &mut Inference,
) -> Result<(), NoMemory>
    requires numbered { IsNumbered bare.now.nodes }
    requires plain { IsPlainTable bare.now.nodes plain.now }
    requires prefix { IsPrefix bare.now.nodes work.old.count }
    requires within { work.old.count ≤ end }
    requires done { work.old.done ≡ work.old.count }
    requires going { IsGoing bare.now work.old.count declared.now (now work.old) work.old.count work.old.count work.old.count }
    ensures going { IfOk result (λ _. IsGoing bare.now work.old.count declared.now (now work.new) work.old.count work.old.count end) }
    ensures count { work.new.count ≡ work.old.count }
    ensures kept { IfOk result (λ _. Keeps (now work.old) (now work.new)) }
{
    'nodes: for node in work.count..end {
        reach(alloc, bare, declared, plain, work, node)?;
    }
    Ok(())
}

/// Infers all nodes below the count, and closes all their declarations. `end` is the number of all nodes.
pub(crate) fn run(
    alloc: Global,
    bare: &Bare,
    declared: &Declared,
    plain: &[bool],
    limit: u32,
    end: u32,
    work: &mut Inference,
) -> Result<(), Failure>
    requires prefix { IsGoodPrefix bare.now work.old.count }
    requires plain { IsPlainTable bare.now.nodes plain.now }
    requires limit { CitesBelow bare.now declared.now limit }
    requires end { end ≡ length bare.now.nodes }
    requires done { work.old.done ≡ 0 }
    requires going { IsGoing bare.now work.old.count declared.now (now work.old) 0 0 0 }
    ensures going { IfOk result (λ _. IsGoing bare.now work.old.count declared.now (now work.new) work.old.count work.old.count (length bare.now.nodes)) }
    ensures count { work.new.count ≡ work.old.count }
    ensures kept { IfOk result (λ _. Keeps (now work.old) (now work.new)) }
    ensures refused { IsUntypable result ((t : Typing) → IsTypingBelow bare.now t work.old.count → ⊥) }
{
    match go(alloc, bare, declared, plain, limit, work) {
        Ok(()) => {}
        Err(failed) => return Err(failed),
    }
    match close_rest(alloc, bare, declared, plain, end, work) {
        Ok(()) => Ok(()),
        Err(NoMemory) => Err(Failure::NoMemory),
    }
}
