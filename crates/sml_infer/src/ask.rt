//! The rule of the next node is asked.

ghost use Rattle.std.specs.Prelude.{◌≡◌, ◌<◌, suc, IfOk, IsTrue, length};
ghost use Rattle.std.specs.List.{AllByRecursion};
ghost use Rattle.sml_tree.specs.BareParts.{IsNumbered};
ghost use Rattle.sml_types.specs.Typing.{Typing, IsTypingBelow, group_names};
ghost use Rattle.infer_tables.specs.Declare.{IsUntypable};
ghost use Rattle.infer_laws.specs.Cited.{con_names, node_names, node_types};
ghost use Rattle.infer_nodes.specs.Good.{AreTypesGood};
ghost use Rattle.sml_infer.specs.Going.{now, CitesBelow, IsGoing, IsEntered, Keeps};
ghost use Rattle.sml_infer.specs.Asking.{IsAskable};

use crate::inference::Inference;
use crate::ready::is_ready;
use infer_nodes::ask;
use infer_state::{Declared, Failure};
use sml_tree::bare::{Con, RecBinding};
use sml_tree::{Bare, Node};
use smlc_base::Name;
use std::alloc::Global;

fn is_name(bare: &Bare, name: Name) -> bool
    ensures { IsTrue result → name.0 < length bare.now.names }
{
    (name.0 as usize) < bare.names.len()
}

fn con_there(bare: &Bare, con: &Con) -> bool
    ensures { IsTrue result → AllByRecursion (λ x. x < length bare.now.names) (con_names con.now) }
{
    match con {
        Con::Exn { name, .. } => is_name(bare, *name),
        _ => true,
    }
}

fn are_below(count: usize, bindings: &[RecBinding]) -> bool
    ensures { IsTrue result → AllByRecursion (λ b. b.name.0 < count) bindings.now }
{
    bindings
        .iter()
        .all(|binding| (binding.name.0 as usize) < count)
}

fn group_there(bare: &Bare, bindings: &[RecBinding]) -> bool
    ensures { IsTrue result → AllByRecursion (λ x. x < length bare.now.names) (group_names bindings.now) }
{
    are_below(bare.names.len(), bindings)
}

// Whether the names that a node itself binds or cites are there.
fn names_there(bare: &Bare, at: &Node) -> bool
    ensures { IsTrue result → AllByRecursion (λ x. x < length bare.now.names) (node_names at.now) }
{
    match at {
        Node::Var(name) => is_name(bare, *name),
        Node::Constructor(con) => con_there(bare, con),
        Node::PatVar(name) => is_name(bare, *name),
        Node::PatCon(con) => con_there(bare, con),
        Node::PatApp(con, _) => con_there(bare, con),
        Node::PatAs(name, _) => is_name(bare, *name),
        Node::ValRec(_, bindings) => group_there(bare, bindings.items()),
        Node::Exception(name, _) => is_name(bare, *name),
        Node::SameException(name, con) => is_name(bare, *name) && con_there(bare, con),
        _ => true,
    }
}

/// Whether the written types that a node has are below a number.
pub(crate) fn types_there(limit: u32, at: &Node) -> bool
    ensures { IsTrue result → AllByRecursion (λ j. j < limit) (node_types at.now) }
{
    match at {
        Node::Typed(_, exp) => *exp < limit,
        Node::PatTyped(_, exp) => *exp < limit,
        Node::Exception(_, Some(exp)) => *exp < limit,
        _ => true,
    }
}

// Whether what a node itself cites is there.
fn is_placed(bare: &Bare, limit: u32, at: &Node) -> bool
    ensures names { IsTrue result → AllByRecursion (λ x. x < length bare.now.names) (node_names at.now) }
    ensures types { IsTrue result → AllByRecursion (λ j. j < limit) (node_types at.now) }
{
    names_there(bare, at) && types_there(limit, at)
}

// Whether the rule of a node can be asked.
fn is_askable(bare: &Bare, limit: u32, work: &Inference, node: u32, at: &Node) -> bool
    ensures { IsTrue result → IsAskable bare.now limit (now work.now) node at.now }
{
    is_ready(&work.scopes, work.settled.as_slice(), node, at) && is_placed(bare, limit, at)
}

/// Asks the rule of the next node.
pub(crate) fn ask_next(
    alloc: Global,
    bare: &Bare,
    declared: &Declared,
    limit: u32,
    work: &mut Inference,
) -> Result<(), Failure>
    requires numbered { IsNumbered bare.now.nodes }
    requires good { AreTypesGood bare.now }
    requires limit { CitesBelow bare.now declared.now limit }
    requires within { work.old.done < work.old.count }
    requires going { IsGoing bare.now work.old.count declared.now (now work.old) work.old.done work.old.done (suc work.old.done) }
    requires entered { IsEntered bare.now (now work.old) work.old.done }
    ensures going { IfOk result (λ _. IsGoing bare.now work.old.count declared.now (now work.new) (suc work.old.done) work.old.done (suc work.old.done)) }
    ensures count { work.new.count ≡ work.old.count }
    ensures done { work.new.done ≡ work.old.done }
    ensures kept { IfOk result (λ _. Keeps (now work.old) (now work.new)) }
    ensures refused { IsUntypable result ((t : Typing) → IsTypingBelow bare.now t work.old.count → ⊥) }
{
    let node = work.done;
    if node as usize >= bare.nodes.len() {
        return Err(Failure::NoMemory);
    }
    let at = &bare.nodes.items()[node as usize];
    if !is_askable(bare, limit, work, node, at) {
        return Err(Failure::NoMemory);
    }
    let asked = ask(
        alloc,
        bare,
        declared,
        work.settled.as_slice(),
        &mut work.unknowns,
        node,
    );
    // Opens the invariant of the types.
    let _ = work.unknowns.types.forms();
    asked
}
