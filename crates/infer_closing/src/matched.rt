//! The names of matches are settled.

ghost use Rattle.std.specs.Prelude.{◌≡◌, List, Some, None, [], ◌∷◌, IfOk, IfSome, length, slice_get};
ghost use Rattle.std.specs.List.{AllByRecursion};
ghost use Rattle.sml_tree.specs.BareParts.{IsNumbered};
ghost use Rattle.sml_tree.specs.declared.bare.Node.{Node};
ghost use Rattle.sml_types.specs.Tree.{Variable};
ghost use Rattle.sml_types.specs.Poly.{mono};
ghost use Rattle.infer_state.specs.Fits.{AreThere, AreBodies, settled_at};
ghost use Rattle.infer_state.specs.Names.{names_of_rules, names_matched};
ghost use Rattle.infer_state.specs.Variables.{AreLaidOut, name_var};
ghost use Rattle.infer_closing.specs.Closing.{AreKept, StaysMatched};
ghost use Rattle.infer_closing.specs.Settling.{Grows, AreNewly};

use crate::found::name_ty;
use crate::settle::put;
use infer_scopes::pattern_names;
use infer_state::{Settled, Starts, Unknowns};
use sml_tree::bare::Rule;
use sml_tree::{Bare, Node};
use sml_types::Scheme;
use smlc_base::{NoMemory, Row};
use std::alloc::Global;

// Settles a name at its own type.
fn settle_own(
    alloc: Global,
    bare: &Bare,
    starts: &Starts,
    settled: &mut Vec<Option<Settled>>,
    unknowns: &Unknowns,
    name: u32,
) -> Result<(), NoMemory>
    requires laid { AreLaidOut bare.now unknowns.now.types starts.now }
    requires there { AreThere unknowns.now.types settled.old.items }
    ensures grown { IfOk result (λ _. Grows unknowns.now unknowns.now settled.old.items settled.new.items) }
    ensures newly { IfOk result (λ _. AreNewly bare.now Variable (settled_at unknowns.now.types settled.old.items) (settled_at unknowns.now.types settled.new.items) [] (name ∷ [])) }
{
    // Opens the invariant of the types.
    let _ = &unknowns.types.forms;
    let ty = name_ty(bare, starts, name)?;
    let entry = Settled {
        from: ty.0,
        scheme: Scheme {
            vars: Row::new(alloc),
            body: ty,
        },
    };
    put(settled, name, entry)?;
    Ok(())
}

fn settle_all(
    alloc: Global,
    bare: &Bare,
    starts: &Starts,
    settled: &mut Vec<Option<Settled>>,
    unknowns: &Unknowns,
    names: &[u32],
) -> Result<(), NoMemory>
    requires laid { AreLaidOut bare.now unknowns.now.types starts.now }
    requires there { AreThere unknowns.now.types settled.old.items }
    ensures grown { IfOk result (λ _. Grows unknowns.now unknowns.now settled.old.items settled.new.items) }
    ensures newly { IfOk result (λ _. AreNewly bare.now Variable (settled_at unknowns.now.types settled.old.items) (settled_at unknowns.now.types settled.new.items) [] names.now) }
{
    'names: for name in names {
        settle_own(alloc, bare, starts, settled, unknowns, *name)?;
    }
    Ok(())
}

fn settle_rules(
    alloc: Global,
    bare: &Bare,
    starts: &Starts,
    settled: &mut Vec<Option<Settled>>,
    unknowns: &Unknowns,
    rules: &[Rule],
) -> Result<(), NoMemory>
    requires numbered { IsNumbered bare.now.nodes }
    requires laid { AreLaidOut bare.now unknowns.now.types starts.now }
    requires there { AreThere unknowns.now.types settled.old.items }
    ensures grown { IfOk result (λ _. Grows unknowns.now unknowns.now settled.old.items settled.new.items) }
    ensures newly { IfOk result (λ _. AreNewly bare.now Variable (settled_at unknowns.now.types settled.old.items) (settled_at unknowns.now.types settled.new.items) [] (names_of_rules bare.now.nodes rules.now)) }
{
    'rules: for rule in rules {
        let names = pattern_names(alloc, bare, rule.pat)?;
        settle_all(alloc, bare, starts, settled, unknowns, &names)?;
    }
    Ok(())
}

// The rules of a node's match.
fn rules_of(node: &Node) -> Option<&Row<Rule>>
    ensures some { IfSome result (λ rules. (nodes : List Node) → names_matched nodes node.now ≡ names_of_rules nodes rules.now) }
    ensures none { result ≡ None → (nodes : List Node) → names_matched nodes node.now ≡ [] }
{
    match node {
        Node::Case(_, rules) => Some(rules),
        Node::Fn(rules) => Some(rules),
        Node::Handle(_, rules) => Some(rules),
        _ => None,
    }
}

/// Settles the names of a node's matches, each at its own type.
///
/// # Errors
///
/// `NoMemory`, also where the node is not there, or a name is settled already.
pub fn settle_matched(
    alloc: Global,
    bare: &Bare,
    starts: &Starts,
    settled: &mut Vec<Option<Settled>>,
    unknowns: &Unknowns,
    node: u32,
) -> Result<(), NoMemory>
    requires numbered { IsNumbered bare.now.nodes }
    requires laid { AreLaidOut bare.now unknowns.now.types starts.now }
    requires there { AreThere unknowns.now.types settled.old.items }
    ensures there { IfOk result (λ _. AreThere unknowns.now.types settled.new.items) }
    ensures bodies { IfOk result (λ _. AreBodies bare.now unknowns.now (settled_at unknowns.now.types settled.old.items) → AreBodies bare.now unknowns.now (settled_at unknowns.now.types settled.new.items)) }
    ensures kept { IfOk result (λ _. AreKept settled.old.items settled.new.items) }
    ensures count { IfOk result (λ _. length settled.new.items ≡ length settled.old.items) }
    ensures matched { IfOk result (λ _. (n : Node) → slice_get bare.now.nodes node ≡ Some n → AllByRecursion (λ x. settled_at unknowns.now.types settled.new.items x ≡ Some (mono (Variable (name_var bare.now x)))) (names_matched bare.now.nodes n)) }
    ensures suited { IfOk result (λ _. StaysMatched bare.now node (settled_at unknowns.now.types settled.old.items) (settled_at unknowns.now.types settled.new.items)) }
{
    // Opens the invariant of the types.
    let _ = &unknowns.types.forms;
    let Some(found) = bare.nodes.items().get(node as usize) else {
        return Err(NoMemory);
    };
    let Some(rules) = rules_of(found) else {
        return Ok(());
    };
    settle_rules(alloc, bare, starts, settled, unknowns, rules.items())?;
    Ok(())
}
