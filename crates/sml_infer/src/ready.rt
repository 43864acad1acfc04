//! Whether the rule of a node can be asked.

ghost use Rattle.std.specs.Prelude.{◌≡◌, ℕ, true, Some, None, List, IsTrue};
ghost use Rattle.sml_types.specs.Poly.{Context, is_in};
ghost use Rattle.infer_state.specs.Fits.{settled_at, settled_poly};
ghost use Rattle.infer_state.specs.Typings.{IsReady, IsConReady, IsUsable, IsPlain};
ghost use Rattle.infer_scopes.specs.Scopes.{contexts_of};
ghost use Rattle.infer_laws.specs.Gives.{IsOwnOpen};
ghost use Rattle.sml_types.specs.declared.types.TyForm.{TyForm};

use infer_scopes::Scopes;
use infer_state::Settled;
use sml_tree::Node;
use sml_tree::bare::Con;
use smlc_base::Name;

// A name stands around a node, and it is settled, or the node is a part of its own declaration.
fn name_ready(scopes: &Scopes, settled: &[Option<Settled>], node: u32, name: Name) -> bool
    ensures { (forms : List TyForm) (c : Context) → IsTrue result → contexts_of scopes.now node ≡ Some c → (is_in c.names name.0 ≡ true) × IsUsable (settled_at forms settled.now) c name.0 × (is_in c.own name.0 ≡ true → settled_at forms settled.now name.0 ≡ None) }
{
    match settled.get(name.0 as usize) {
        Some(Some(_)) => scopes.is_bound(node, name) && !scopes.is_own(node, name),
        _ => scopes.is_bound(node, name) && scopes.is_own(node, name),
    }
}

fn is_plain(scheme: &Option<Settled>) -> bool
    ensures { (forms : List TyForm) → IsTrue result → IsPlain (settled_poly forms scheme.now) }
{
    match scheme {
        Some(settled) => settled.scheme.vars.len() == 0,
        None => false,
    }
}

// A name is settled at one type alone.
fn is_plain_at(settled: &[Option<Settled>], name: Name) -> bool
    ensures { (forms : List TyForm) → IsTrue result → IsPlain (settled_at forms settled.now name.0) }
{
    (name.0 as usize) < settled.len() && is_plain(&settled[name.0 as usize])
}

// An exception constructor stands around a node, and is settled at one type alone.
fn con_ready(scopes: &Scopes, settled: &[Option<Settled>], node: u32, con: &Con) -> bool
    ensures { (forms : List TyForm) (c : Context) → IsTrue result → contexts_of scopes.now node ≡ Some c → IsConReady (settled_at forms settled.now) c con.now }
{
    match con {
        Con::Exn { name, .. } => is_plain_at(settled, *name) && scopes.is_bound(node, *name),
        _ => true,
    }
}

/// Whether the rule of a node can be asked: what it cites stands around it, and has its scheme.
pub(crate) fn is_ready(scopes: &Scopes, settled: &[Option<Settled>], node: u32, at: &Node) -> bool
    ensures { (forms : List TyForm) (c : Context) → IsTrue result → contexts_of scopes.now node ≡ Some c → IsReady (settled_at forms settled.now) c at.now × IsOwnOpen (settled_at forms settled.now) c at.now }
{
    match at {
        Node::Var(name) => name_ready(scopes, settled, node, *name),
        Node::Constructor(con) => con_ready(scopes, settled, node, con),
        Node::PatCon(con) => con_ready(scopes, settled, node, con),
        Node::PatApp(con, _) => con_ready(scopes, settled, node, con),
        Node::SameException(_, con) => con_ready(scopes, settled, node, con),
        _ => true,
    }
}
