//! Declarations are closed.

ghost use Rattle.std.specs.Prelude.{◌≡◌, ℕ, Some, IfOk, length, slice_get};
ghost use Rattle.std.specs.List.{AllByRecursion};
ghost use Rattle.sml_tree.specs.BareParts.{IsNumbered};
ghost use Rattle.sml_tree.specs.declared.bare.Node.{Node};
ghost use Rattle.sml_types.specs.Poly.{Context};
ghost use Rattle.sml_unify.specs.Solved.{AreBindings};
ghost use Rattle.infer_parts.specs.Plain.{IsPlainTable};
ghost use Rattle.infer_state.specs.Variables.{AreLaidOut};
ghost use Rattle.infer_state.specs.Names.{names_bound};
ghost use Rattle.infer_state.specs.Fits.{AreThere, AreBodies, settled_at};
ghost use Rattle.infer_scopes.specs.Scopes.{contexts_of, AllOpen, AreOpen};
ghost use Rattle.infer_closing.specs.Groups.{of_declaration};
ghost use Rattle.infer_closing.specs.Open.{closed_at};
ghost use Rattle.infer_closing.specs.Closing.{meaning, declared_at, IsClosed, IsFreshAt, IsLetAt, AddsTypes, AreKept, AreGeneralKept, StaysSuited};

use crate::found::groups_of;
use crate::left::open_around;
use crate::settle::close_groups;
use infer_scopes::Scopes;
use infer_state::{Settled, Starts, Unknowns};
use sml_tree::{Bare, Node};
use sml_types::TyVar;
use smlc_base::{NoMemory, Row};
use std::alloc::Global;

// The declaration of a `let`.
fn declaration(bare: &Bare, node: u32) -> Option<u32>
    ensures { result ≡ declared_at (slice_get bare.now.nodes node) }
{
    match bare.nodes.items().get(node as usize) {
        Some(Node::Let(dec, _)) => Some(*dec),
        _ => None,
    }
}

/// Closes the declaration of a `let`, of which all has been inferred: its names get their schemes, and its right sides what they generalise. The answer has the names whose schemes leave variables open.
///
/// # Errors
///
/// `NoMemory`, also where the node is no `let` of a declaration, a name is settled or a right side closed already, or a name around is neither settled nor being declared.
pub fn close(
    alloc: Global,
    bare: &Bare,
    scopes: &Scopes,
    plain: &[bool],
    starts: &Starts,
    settled: &mut Vec<Option<Settled>>,
    general: &mut Vec<Option<Row<TyVar>>>,
    unknowns: &mut Unknowns,
    node: u32,
) -> Result<Vec<u32>, NoMemory>
    requires numbered { IsNumbered bare.now.nodes }
    requires bindings { AreBindings unknowns.old.types unknowns.old.subst.bound }
    requires laid { AreLaidOut bare.now unknowns.old.types starts.now }
    requires plain { IsPlainTable bare.now.nodes plain.now }
    requires there { AreThere unknowns.old.types settled.old.items }
    ensures state { IfOk result (λ _. AddsTypes unknowns.old unknowns.new) }
    ensures there { IfOk result (λ _. AreThere unknowns.new.types settled.new.items) }
    ensures bodies { IfOk result (λ _. AreBodies bare.now unknowns.old (settled_at unknowns.old.types settled.old.items) → AreBodies bare.now unknowns.new (settled_at unknowns.new.types settled.new.items)) }
    ensures kept { IfOk result (λ _. AreKept settled.old.items settled.new.items) }
    ensures count { IfOk result (λ _. length settled.new.items ≡ length settled.old.items) }
    ensures general { IfOk result (λ _. AreGeneralKept general.old.items general.new.items) }
    ensures closed { IfOk result (λ _. (d : ℕ) (n : Node) → IsLetAt bare.now.nodes node d n → AllByRecursion (IsClosed bare.now (meaning unknowns.new) general.new.items (settled_at unknowns.new.types settled.new.items)) (of_declaration bare.now.nodes n)) }
    ensures fresh { IfOk result (λ _. (c : Context) (d : ℕ) (n : Node) → contexts_of scopes.now node ≡ Some c → AllOpen (closed_at (settled_at unknowns.old.types settled.old.items)) scopes.now → IsLetAt bare.now.nodes node d n → AllByRecursion (IsFreshAt bare.now (settled_at unknowns.old.types settled.old.items) (meaning unknowns.old) c general.new.items) (of_declaration bare.now.nodes n)) }
    ensures suited { IfOk result (λ _. StaysSuited bare.now (contexts_of scopes.now) node unknowns.old (settled_at unknowns.old.types settled.old.items) (settled_at unknowns.new.types settled.new.items)) }
    ensures left { IfOk result (λ left. (d : ℕ) (n : Node) → IsLetAt bare.now.nodes node d n → AreOpen (closed_at (settled_at unknowns.new.types settled.new.items)) (names_bound bare.now.nodes d) left.items) }
{
    // Opens the invariant of the types.
    let _ = &unknowns.types.forms;
    let Some(dec) = declaration(bare, node) else {
        return Err(NoMemory);
    };
    let groups = groups_of(alloc, bare, plain, starts, settled, unknowns, dec)?;
    let opened = open_around(
        alloc, bare, scopes, starts, settled, unknowns, node, &groups,
    )?;
    let left = close_groups(
        alloc,
        bare,
        starts,
        settled,
        general,
        unknowns,
        opened.items(),
        &groups,
    )?;
    Ok(left)
}
