//! Type variables: those that are named, those that occur, and those that a declaration binds.

ghost use Rattle.std.specs.Prelude.{◌≡◌, ◌≢◌, ◌∷◌, ◌++◌, [], ◌<◌, ℕ, List, true, ◌||◌, if◌then◌else◌, is_none, IfOk, OnOk, map, filter, reverse};
ghost use Rattle.smlc_base.specs.declared.place.Place.{Place};
ghost use Rattle.smlc_base.specs.declared.refusal.Refusal.TheVariants as refusal;
ghost use Rattle.sml_tree.specs.declared.tree_node.TreeNode.TheVariants as tree;
ghost use Rattle.sml_expansion.specs.Terms.{Term, leaf};
ghost use Rattle.sml_expansion.specs.Sources.{IsAt, node_at};
ghost use Rattle.sml_expansion.specs.Scopes.{scope_of};
ghost use Rattle.sml_expansion.specs.Scoped.{latest};
ghost use Rattle.sml_expansion.specs.Makings.{Runs, breaks};
ghost use Rattle.sml_expansion.specs.TypeVariables.{tyvars, unguarded, opens, params, numbers_of, keys_of, once, stands, new_tyvars, bound_again};
ghost use Rattle.expand_types.specs.Forms.{opens_up};

use sml_expansion::once::idents_once;
use sml_expansion::{Bindings, Ident, Made, Parsed, Scoped};
use sml_tree::TreeNode;
use smlc_base::{NoMemory, Place, Refusal, Row};
use std::alloc::Global;

/// The type variable of a node puts itself last; no other node is one.
fn push_tyvar(node: TreeNode, place: Place, idents: &mut Vec<Ident>) -> Result<(), NoMemory>
    ensures { OnOk result ((names : List (List ℕ)) → idents.new.items ≡ idents.old.items ++ tyvars names (leaf node place)) }
{
    if let TreeNode::TyVar(name) = node {
        idents.push(Ident {
            key: name.0,
            long: false,
            place,
        })?;
    }
    Ok(())
}

/// Type variables behind those that are there.
#[cycle(tyvars)]
fn push_tyvars(parsed: &Parsed, at: u32, idents: &mut Vec<Ident>) -> Result<(), NoMemory>
    ensures { OnOk result ((t : Term) → IsAt parsed.now at t → idents.new.items ≡ idents.old.items ++ tyvars parsed.now.names t) }
{
    let mut rest = at;
    while let TreeNode::MoreTyVars = parsed.node(rest) {
        let (first, behind) = parsed.two(rest);
        push_tyvars(parsed, first, idents)?;
        rest = behind;
    }
    push_sequence(parsed, rest, idents)
}

/// The type variables of what is no list of them.
#[cycle(tyvars)]
fn push_sequence(parsed: &Parsed, at: u32, idents: &mut Vec<Ident>) -> Result<(), NoMemory>
    requires { node_at parsed.now at ≢ tree.MoreTyVars }
    ensures { OnOk result ((t : Term) → IsAt parsed.now at t → idents.new.items ≡ idents.old.items ++ tyvars parsed.now.names t) }
{
    match parsed.node(at) {
        TreeNode::TyVarSeq => push_tyvars(parsed, parsed.one(at), idents),
        node => push_tyvar(node, parsed.place(at), idents),
    }
}

/// A sequence of type variables.
pub fn tyvars(alloc: Global, parsed: &Parsed, at: u32) -> Result<Vec<Ident>, NoMemory>
    ensures { IfOk result (λ idents. (t : Term) → IsAt parsed.now at t → idents.items ≡ tyvars parsed.now.names t) }
{
    let mut idents = Vec::new(alloc);
    push_tyvars(parsed, at, &mut idents)?;
    Ok(idents)
}

/// Whether a node has parts whose type variables belong to the phrase around it.
fn opens_up(node: TreeNode) -> bool
    ensures { result ≡ opens_up node }
{
    match node {
        TreeNode::Val => false,
        TreeNode::Fun => false,
        TreeNode::Type => false,
        TreeNode::Datatype => false,
        node => node.parts() > 0,
    }
}

/// The key of a type variable.
fn push_key(node: TreeNode, keys: &mut Vec<u32>) -> Result<(), NoMemory>
    ensures { OnOk result ((p : Place) → keys.new.items ≡ keys.old.items ++ unguarded (leaf node p)) }
{
    if let TreeNode::TyVar(name) = node {
        keys.push(name.0)?;
    }
    Ok(())
}

/// The type variables of a phrase, behind those that are there.
#[cycle(unguarded)]
fn push_unguarded(parsed: &Parsed, at: u32, keys: &mut Vec<u32>) -> Result<(), NoMemory>
    ensures { OnOk result ((t : Term) → IsAt parsed.now at t → keys.new.items ≡ keys.old.items ++ unguarded t) }
{
    let mut rest = at;
    while opens_up(parsed.node(rest)) {
        rest = push_before_last(parsed, rest, keys)?;
    }
    push_key(parsed.node(rest), keys)
}

/// The type variables of all parts but the last, which is answered.
#[cycle(unguarded)]
fn push_before_last(parsed: &Parsed, at: u32, keys: &mut Vec<u32>) -> Result<u32, NoMemory>
    requires { opens_up (node_at parsed.now at) ≡ true }
    ensures below { IfOk result (λ last. last < at) }
    ensures keys { IfOk result (λ last. (t : Term) → IsAt parsed.now at t → (u : Term) × IsAt parsed.now last u × (keys.new.items ++ unguarded u ≡ keys.old.items ++ unguarded t)) }
{
    match parsed.node(at).parts() {
        1 => Ok(parsed.one(at)),
        2 => {
            let (first, last) = parsed.two(at);
            push_unguarded(parsed, first, keys)?;
            Ok(last)
        }
        3 => {
            let (first, second, last) = parsed.three(at);
            push_unguarded(parsed, first, keys)?;
            push_unguarded(parsed, second, keys)?;
            Ok(last)
        }
        _ => {
            let (first, second, third, last) = parsed.four(at);
            push_unguarded(parsed, first, keys)?;
            push_unguarded(parsed, second, keys)?;
            push_unguarded(parsed, third, keys)?;
            Ok(last)
        }
    }
}

/// The type variables that occur in a phrase, in order, but for those in value, type and datatype declarations inside it.
pub fn unguarded(alloc: Global, parsed: &Parsed, at: u32) -> Result<Vec<u32>, NoMemory>
    ensures { IfOk result (λ keys. (t : Term) → IsAt parsed.now at t → keys.items ≡ unguarded t) }
{
    let mut keys = Vec::new(alloc);
    push_unguarded(parsed, at, &mut keys)?;
    Ok(keys)
}

/// New type variables with these names, each with its number.
fn new_tyvars(parsed: &Parsed, made: &mut Made, keys: &[u32]) -> Result<Vec<(u32, u32)>, NoMemory>
    ensures { IfOk result (λ vars. Runs (new_tyvars parsed.now.names keys.now) made.old vars.items made.new) }
{
    let mut vars = Vec::new(made.allocator());
    for key in keys {
        let number = made.new_tyvar(parsed.text(*key))?;
        vars.push((*key, number))?;
    }
    Ok(vars)
}

/// The keys of identifiers.
fn keys_of(alloc: Global, idents: &[Ident]) -> Result<Vec<u32>, NoMemory>
    ensures { IfOk result (λ keys. keys.items ≡ keys_of idents.now) }
{
    let mut keys = Vec::new(alloc);
    for ident in idents {
        keys.push(ident.key)?;
    }
    Ok(keys)
}

/// The type variables on the left of a `type` or `datatype` binding, with their numbers.
pub fn params(
    parsed: &Parsed,
    made: &mut Made,
    idents: &[Ident],
) -> Result<Vec<(u32, u32)>, NoMemory>
    ensures { IfOk result (λ vars. Runs (params parsed.now.names idents.now) made.old vars.items made.new) }
{
    idents_once(made, idents)?;
    let keys = keys_of(made.allocator(), idents)?;
    new_tyvars(parsed, made, &keys)
}

/// The type variables that a value declaration binds, with their numbers: those that it names, and those that occur in it and aren't bound around it.
pub fn opens(
    parsed: &Parsed,
    bindings: &Bindings,
    made: &mut Made,
    explicit: &[Ident],
    occurring: &[u32],
) -> Result<Vec<(u32, u32)>, NoMemory>
    ensures { IfOk result (λ vars. Runs (opens (scope_of parsed.now.names bindings.now) explicit.now occurring.now) made.old vars.items made.new) }
{
    idents_once(made, explicit)?;
    refuse_bound_again(bindings, made, explicit);
    let keys = new_keys(bindings, made.allocator(), explicit, occurring)?;
    new_tyvars(parsed, made, &keys)
}

/// Binds type variables before those that are bound.
pub fn in_scope(bindings: &mut Bindings, vars: &[(u32, u32)]) -> Result<(), NoMemory>
    ensures { OnOk result (bindings.new ≡ record bindings.old { tyvars = reverse vars.now ++ bindings.old.tyvars }) }
{
    for (key, number) in vars {
        bindings.tyvars.bind(*key, *number)?;
    }
    Ok(())
}

/// The numbers of type variables.
pub fn numbers_of(alloc: Global, vars: &[(u32, u32)]) -> Result<Row<u32>, NoMemory>
    ensures { IfOk result (λ numbers. numbers ≡ numbers_of vars.now) }
{
    let mut numbers = Row::new(alloc);
    for (_, number) in vars {
        numbers.push(*number)?;
    }
    Ok(numbers)
}

/// None of these is bound around the declaration.
fn refuse_bound_again(bindings: &Bindings, made: &mut Made, explicit: &[Ident])
    ensures { (names : List (List ℕ)) → Runs (breaks (map (λ i. refusal.BadBinding i.place) (filter (bound_again (scope_of names bindings.now)) explicit.now))) made.old tt made.new }
{
    for ident in explicit {
        if bindings.tyvars.get(ident.key).is_some() {
            made.refuse(Refusal::BadBinding(ident.place));
        }
    }
}

/// The keys of those that are bound: each of them once.
fn new_keys(
    bindings: &Bindings,
    alloc: Global,
    explicit: &[Ident],
    occurring: &[u32],
) -> Result<Vec<u32>, NoMemory>
    ensures { IfOk result (λ keys. keys.items ≡ once [] (keys_of explicit.now) ++ once (keys_of explicit.now ++ map (λ v. v.0) bindings.now.tyvars) occurring.now) }
{
    let named = keys_of(alloc, explicit)?;
    let unbound = unbound(bindings, alloc, occurring)?;
    let mut keys = Vec::new(alloc);
    let mut seen = Scoped::new(alloc);
    push_each_once(&mut seen, &mut keys, &named)?;
    push_each_once(&mut seen, &mut keys, &unbound)?;
    Ok(keys)
}

/// The keys that aren't bound.
fn unbound(bindings: &Bindings, alloc: Global, keys: &[u32]) -> Result<Vec<u32>, NoMemory>
    ensures { IfOk result (λ left. left.items ≡ filter (λ x. is_none (latest bindings.now.tyvars x)) keys.now) }
{
    let mut left = Vec::new(alloc);
    for key in keys {
        if bindings.tyvars.get(*key).is_none() {
            left.push(*key)?;
        }
    }
    Ok(left)
}

/// Each of the keys that aren't seen puts itself last, once.
fn push_each_once(
    seen: &mut Scoped<bool>,
    keys: &mut Vec<u32>,
    more: &[u32],
) -> Result<(), NoMemory>
    ensures keys { OnOk result (keys.new.items ≡ keys.old.items ++ once (map (λ v. v.0) seen.old) more.now) }
    ensures seen { OnOk result ((x : ℕ) → stands (map (λ v. v.0) seen.new) x ≡ (stands more.now x || stands (map (λ v. v.0) seen.old) x)) }
{
    for key in more {
        push_once(seen, keys, *key)?;
    }
    Ok(())
}

/// A key that isn't seen.
fn push_once(seen: &mut Scoped<bool>, keys: &mut Vec<u32>, key: u32) -> Result<(), NoMemory>
    ensures keys { OnOk result (keys.new.items ≡ (if is_none (latest seen.old key) then keys.old.items ++ key ∷ [] else keys.old.items)) }
    ensures seen { OnOk result (seen.new ≡ (if is_none (latest seen.old key) then (key, true) ∷ seen.old else seen.old)) }
{
    if seen.get(key).is_none() {
        keys.push(key)?;
        seen.bind(key, true)?;
    }
    Ok(())
}
