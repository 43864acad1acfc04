//! Value declarations.

ghost use Rattle.std.specs.Prelude.{◌≡◌, ◌++◌, List, length, [], ◌∷◌, false, true, IfOk, OnOk};
ghost use Rattle.sml_expansion.specs.Terms.{Term, two};
ghost use Rattle.sml_expansion.specs.Sources.{IsAt, node_at};
ghost use Rattle.sml_expansion.specs.Forests.{Forest, count};
ghost use Rattle.sml_expansion.specs.declared.mark.Mark.{Mark};
ghost use Rattle.sml_expansion.specs.declared.mark.Mark.TheVariants.{Open};
ghost use Rattle.sml_expansion.specs.Marks.{marks};
ghost use Rattle.sml_expansion.specs.Scopes.{within};
ghost use Rattle.sml_expansion.specs.Expressions.{decs, plain_bindings, plain_dec, rec_dec, rec_bindings, rec_rights};
ghost use Rattle.sml_expansion.specs.Bindings.{rec_names};
ghost use Rattle.sml_expansion.specs.TypeVariables.{tyvars, unguarded, opens, numbers_of};
ghost use Rattle.sml_expansion.specs.Patterns.{env_of};
ghost use Rattle.smlc_base.specs.declared.place.Place.{Place};
ghost use Rattle.sml_tree.specs.Parts.{parts_of};
ghost use Rattle.sml_tree.specs.declared.tree_node.TreeNode.TheVariants as node;
ghost use Rattle.sml_derive.specs.Forms.{times};
ghost use Rattle.sml_derive.specs.Steps.{scope, made, marked, behind, leads, Declares};
ghost use Rattle.sml_derive.specs.Values.{tyvars_seen, tyvars_unseen, unless_none, named, typed_ends, Leads, BindsLed};

use crate::bindings::plain_bindings;
use crate::expressions::expression;
use crate::identifiers::Stands;
use crate::number::add;
use crate::parts::{see, unsee};
use expand_patterns::rec_names;
use expand_types::annotations::annotations;
use expand_types::type_variables::numbers_of;
use expand_types::{in_scope, opens, refuse_other_than_fn, tyvars, unguarded};
use sml_expansion::once::vars_once;
use sml_expansion::{Bound, Parsed, Walk};
use sml_tree::TreeNode;
use sml_tree::bare::{Node, RecBinding};
use smlc_base::{Name, NoMemory, Place, Row};
use std::alloc::Global;

/// A `val` declaration.
#[cycle(phrases)]
pub(crate) fn val_dec(parsed: &Parsed, walk: &mut Walk, at: u32) -> Result<u32, NoMemory>
    requires { parts_of (node_at parsed.now at) ≡ 2 }
    ensures { IfOk result (λ trees. (p : Place) (vs b : Term) → IsAt parsed.now at (two node.Val p vs b) → Declares (decs (scope parsed.now walk.old) (two node.Val p vs b)) walk.old walk.new trees) }
{
    let place = parsed.place(at);
    let (sequence, bindings) = parsed.two(at);
    let around = walk.bindings.tyvars.len();
    let tyvars = see_tyvars(parsed, walk, sequence, bindings)?;
    let mut vars = Vec::new(walk.allocator());
    let plain = plain_part(parsed, walk, &mut vars, &tyvars, place, bindings)?;
    let names = rec_part_names(parsed, walk, &mut vars, bindings)?;
    let recursive = rec_part(parsed, walk, &names, &tyvars, place, bindings)?;
    unsee_tyvars(walk, around);
    see(walk, &vars)?;
    add(plain, recursive)
}

/// The type variables that a value declaration with these bindings binds come into scope.
pub(crate) fn see_tyvars(
    parsed: &Parsed,
    walk: &mut Walk,
    sequence: u32,
    bindings: u32,
) -> Result<Vec<(u32, u32)>, NoMemory>
    ensures walk { OnOk result ((vs b : Term) → IsAt parsed.now sequence vs → IsAt parsed.now bindings b → walk.new ≡ tyvars_seen (opens (scope parsed.now walk.old) (tyvars parsed.now.names vs) (unguarded b)) walk.old) }
    ensures vars { IfOk result (λ vars. (vs b : Term) → IsAt parsed.now sequence vs → IsAt parsed.now bindings b → vars.items ≡ (opens (scope parsed.now walk.old) (tyvars parsed.now.names vs) (unguarded b) walk.old.made).0) }
{
    let explicit = tyvars(walk.allocator(), parsed, sequence)?;
    let occurring = unguarded(walk.allocator(), parsed, bindings)?;
    let vars = opens(
        parsed,
        &walk.bindings,
        &mut walk.made,
        &explicit,
        &occurring,
    )?;
    in_scope(&mut walk.bindings, &vars)?;
    Ok(vars)
}

/// The type variables since there were so many go out of scope.
pub(crate) fn unsee_tyvars(walk: &mut Walk, around: usize)
    ensures { walk.new ≡ tyvars_unseen around walk.old }
{
    walk.bindings.tyvars.undo_to(around);
}

/// A declaration's parts begin: how many marks there were before.
pub(crate) fn begin(walk: &mut Walk) -> Result<usize, NoMemory>
    ensures walk { OnOk result (walk.new ≡ marked (Open ∷ Open ∷ []) walk.old) }
    ensures from { IfOk result (λ from. from ≡ length walk.old.marks) }
{
    let from = walk.marks.len();
    walk.open()?;
    walk.open()?;
    Ok(from)
}

/// A declaration behind its parts. If nothing stands behind the two marks that begin it, there is no declaration, and they are taken back.
pub(crate) fn finish(
    walk: &mut Walk,
    from: usize,
    node: Node,
    place: Place,
) -> Result<u32, NoMemory>
    ensures { IfOk result (λ trees. (f : Forest) (before : List Mark) → walk.old.marks ≡ before ++ Open ∷ Open ∷ marks f → from ≡ length before → (walk.new ≡ record walk.old { marks = before ++ leads (unless_none node place f) }) × (trees ≡ count (unless_none node place f))) }
{
    if walk.marks.len().saturating_sub(from) > 2 {
        walk.close(node, place)?;
        Ok(1)
    } else {
        walk.marks.truncate(from);
        Ok(0)
    }
}

/// The bindings before the first `rec`, as a declaration if there are any.
#[cycle(phrases)]
fn plain_part(
    parsed: &Parsed,
    walk: &mut Walk,
    vars: &mut Vec<Bound>,
    tyvars: &[(u32, u32)],
    place: Place,
    at: u32,
) -> Result<u32, NoMemory>
    ensures { IfOk result (λ trees. (t : Term) → IsAt parsed.now at t → BindsLed (plain_bindings (scope parsed.now walk.old) t) (plain_dec place (numbers_of tyvars.now)) walk.old walk.new vars.old.items vars.new.items trees) }
{
    let numbers = numbers_of(walk.allocator(), tyvars)?;
    let from = begin(walk)?;
    plain_bindings(parsed, walk, vars, at)?;
    let node = Node::Val(numbers, Row::new(walk.allocator()));
    finish(walk, from, node, place)
}

/// The names of the bindings behind the first `rec`, which stand behind the variables so far. No variable stands twice.
fn rec_part_names(
    parsed: &Parsed,
    walk: &mut Walk,
    vars: &mut Vec<Bound>,
    at: u32,
) -> Result<Vec<Bound>, NoMemory>
    ensures walk { OnOk result ((t : Term) → IsAt parsed.now at t → walk.new ≡ made (named vars.old.items (rec_names (scope parsed.now walk.old) false t)) walk.old) }
    ensures names { IfOk result (λ names. (t : Term) → IsAt parsed.now at t → names.items ≡ (rec_names (scope parsed.now walk.old) false t walk.old.made).0) }
    ensures vars { IfOk result (λ names. vars.new.items ≡ vars.old.items ++ names.items) }
{
    let mut names = Vec::new(walk.allocator());
    rec_names(parsed, walk, &mut names, false, at)?;
    vars.extend_from_slice(&names)?;
    vars_once(&mut walk.made, vars)?;
    Ok(names)
}

/// What a recursive declaration binds, where no right side is named yet.
pub(crate) fn rec_row(alloc: Global, names: &[Bound]) -> Result<Row<RecBinding>, NoMemory>
    ensures { IfOk result (λ row. row ≡ rec_bindings names.now) }
{
    let mut row = Row::new(alloc);
    for bound in names {
        row.push(RecBinding {
            name: Name(bound.name),
            right: 0,
        })?;
    }
    Ok(row)
}

/// The bindings behind the first `rec`, as a declaration if there are any.
#[cycle(phrases)]
fn rec_part(
    parsed: &Parsed,
    walk: &mut Walk,
    names: &[Bound],
    tyvars: &[(u32, u32)],
    place: Place,
    at: u32,
) -> Result<u32, NoMemory>
    ensures { IfOk result (λ trees. (t : Term) → IsAt parsed.now at t → Leads (rec_rights false (within (scope parsed.now walk.old) (env_of names.now)) t) (rec_dec place (numbers_of tyvars.now) names.now) walk.old walk.new trees) }
{
    let numbers = numbers_of(walk.allocator(), tyvars)?;
    let row = rec_row(walk.allocator(), names)?;
    let around = walk.bindings.values.len();
    see(walk, names)?;
    let from = begin(walk)?;
    rec_rights(parsed, walk, false, at)?;
    unsee(walk, around);
    finish(walk, from, Node::ValRec(numbers, row), place)
}

/// The right sides of the bindings behind the first `rec`.
#[cycle(phrases)]
fn rec_rights(parsed: &Parsed, walk: &mut Walk, inside: bool, at: u32) -> Result<(), NoMemory>
    ensures { OnOk result ((t : Term) → IsAt parsed.now at t → walk.new ≡ behind (rec_rights inside (scope parsed.now walk.old) t) walk.old) }
{
    let mut behind = inside;
    let mut next = at;
    loop {
        match parsed.node(next) {
            TreeNode::Rec => {
                behind = true;
                next = parsed.one(next);
            }
            TreeNode::MoreValBinds => {
                let (first, rest) = parsed.two(next);
                rec_rights(parsed, walk, behind, first)?;
                next = rest;
            }
            TreeNode::ValBind => {
                if behind {
                    return rec_right(parsed, walk, next);
                }
                return Ok(());
            }
            _ => return Ok(()),
        }
    }
}

/// The right side of a recursive binding, with the types that stand at its name.
#[cycle(phrases)]
fn rec_right(parsed: &Parsed, walk: &mut Walk, at: u32) -> Result<(), NoMemory>
    requires { parts_of (node_at parsed.now at) ≡ 2 }
    ensures { OnOk result ((p : Place) (q a : Term) → IsAt parsed.now at (two node.ValBind p q a) → walk.new ≡ behind (rec_rights true (scope parsed.now walk.old) (two node.ValBind p q a)) walk.old) }
{
    let (pattern, right) = parsed.two(at);
    let place = parsed.place(right);
    refuse_other_than_fn(parsed, &mut walk.made, right);
    let types = annotations(parsed, &walk.bindings, &mut walk.made, pattern)?;
    open_types(walk, &types)?;
    expression(parsed, walk, Stands::Elsewhere, right)?;
    close_types(walk, &types, place)
}

/// Nodes with types begin.
fn open_types(walk: &mut Walk, types: &[u32]) -> Result<(), NoMemory>
    ensures { OnOk result (walk.new ≡ marked (times (length types.now) (Open ∷ [])) walk.old) }
{
    for _ in types {
        walk.open()?;
    }
    Ok(())
}

/// Nodes with types behind their parts, the innermost first.
fn close_types(walk: &mut Walk, types: &[u32], place: Place) -> Result<(), NoMemory>
    ensures { OnOk result (walk.new ≡ marked (typed_ends place types.now) walk.old) }
{
    for ty in types {
        walk.close(Node::Typed(0, *ty), place)?;
    }
    Ok(())
}
