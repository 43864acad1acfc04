//! Whether the names that nodes bind are settled.

ghost use Rattle.std.specs.Prelude.{List, IsTrue, slice_get};
ghost use Rattle.std.specs.List.{AllByRecursion};
ghost use Rattle.sml_tree.specs.BareParts.{IsNumbered};
ghost use Rattle.sml_types.specs.declared.types.TyForm.{TyForm};
ghost use Rattle.sml_types.specs.Typing.{group_names};
ghost use Rattle.infer_state.specs.Fits.{settled_at};
ghost use Rattle.infer_scopes.specs.Prefix.{IsPrefix};
ghost use Rattle.infer_laws.specs.Principal.{AreSettledBelow};
ghost use Rattle.infer_checks.specs.Bound.{HasScheme, HaveSchemes, HaveSchemesAt};

use infer_state::Settled;
use sml_tree::bare::RecBinding;
use sml_tree::{Bare, Node};

fn is_settled(settled: &[Option<Settled>], name: u32) -> bool
    ensures { IsTrue result → (forms : List TyForm) → HasScheme (settled_at forms settled.now name) }
{
    match settled.get(name as usize) {
        Some(Some(_)) => true,
        _ => false,
    }
}

// Whether the names of a recursive declaration are settled.
fn are_group_settled(settled: &[Option<Settled>], bindings: &[RecBinding]) -> bool
    ensures { IsTrue result → (forms : List TyForm) → AllByRecursion (λ x. HasScheme (settled_at forms settled.now x)) (group_names bindings.now) }
{
    'bindings: for binding in bindings {
        if !is_settled(settled, binding.name.0) {
            return false;
        }
    }
    true
}

// Whether the names that stand in a node are settled.
fn are_own_settled(settled: &[Option<Settled>], node: &Node) -> bool
    ensures { IsTrue result → (forms : List TyForm) → HaveSchemes (settled_at forms settled.now) node.now }
{
    match node {
        Node::PatVar(name) => is_settled(settled, name.0),
        Node::PatAs(name, _) => is_settled(settled, name.0),
        Node::ValRec(_, bindings) => are_group_settled(settled, bindings.items()),
        Node::Exception(name, _) => is_settled(settled, name.0),
        Node::SameException(name, _) => is_settled(settled, name.0),
        _ => true,
    }
}

// Whether the names that stand in the node of a number are settled.
fn are_settled_at(nodes: &[Node], settled: &[Option<Settled>], at: u32) -> bool
    ensures { IsTrue result → (forms : List TyForm) → HaveSchemesAt (settled_at forms settled.now) (slice_get nodes.now at) }
{
    match nodes.get(at as usize) {
        Some(node) => are_own_settled(settled, node),
        None => true,
    }
}

/// Whether all names that nodes below a number bind are settled.
pub(crate) fn are_settled_below(bare: &Bare, settled: &[Option<Settled>], count: u32) -> bool
    requires numbered { IsNumbered bare.now.nodes }
    requires prefix { IsPrefix bare.now.nodes count }
    ensures { IsTrue result → (forms : List TyForm) → AreSettledBelow bare.now count (settled_at forms settled.now) }
{
    let nodes = bare.nodes.items();
    'nodes: for at in 0..count {
        if !are_settled_at(nodes, settled, at) {
            return false;
        }
    }
    true
}
