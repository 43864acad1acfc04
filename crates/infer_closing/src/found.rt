//! The variables that the names of a declaration may generalise.

ghost use Rattle.std.specs.Prelude.{◌≡◌, ◌+◌, ◌<◌, ◌∷◌, [], List, Some, None, IsTrue, IfOk, length, slice_get};
ghost use Rattle.std.specs.List.{AllByRecursion};
ghost use Rattle.sml_tree.specs.declared.bare.Node.{Node};
ghost use Rattle.sml_tree.specs.BareParts.{IsNumbered};
ghost use Rattle.sml_types.specs.Forms.{AreForms};
ghost use Rattle.sml_types.specs.Tree.{AllVars};
ghost use Rattle.sml_types.specs.Typing.{IsAmong};
ghost use Rattle.sml_types.specs.declared.types.TyVar.{TyVar};
ghost use Rattle.sml_types.specs.declared.types.TyForm.{TyForm};
ghost use Rattle.sml_unify.specs.Solved.{AreBindings, meant, under};
ghost use Rattle.infer_parts.specs.Plain.{IsPlainTable};
ghost use Rattle.infer_state.specs.Variables.{AreLaidOut, name_var};
ghost use Rattle.infer_state.specs.Fits.{settled_at};
ghost use Rattle.infer_closing.specs.Groups.{together, of_bindings, of_group};
ghost use Rattle.infer_closing.specs.Closing.{meaning};
ghost use Rattle.infer_closing.specs.Found.{plain_right, AreVars, IsFoundAt, IsFound, AreFound, AreGroups, IsConPlain};

use crate::group::{Group, Together};
use crate::vars::add_once;
use infer_scopes::pattern_names;
use infer_state::{Settled, Starts, Unknowns};
use sml_tree::bare::{Binding, Con, RecBinding};
use sml_tree::{Bare, Node};
use sml_types::{Ty, TyVar, Types};
use sml_unify::Subst;
use sml_unify::variables::variables;
use smlc_base::{NoMemory, Row};
use std::alloc::Global;

/// The type of a name.
pub(crate) fn name_ty(bare: &Bare, starts: &Starts, name: u32) -> Result<Ty, NoMemory>
    requires { starts.now.names + length bare.now.names < 4294967296 }
    ensures { IfOk result (λ t. (name < length bare.now.names) × (t.0 ≡ starts.now.names + name)) }
{
    if name as usize >= bare.names.len() {
        return Err(NoMemory);
    }
    Ok(Ty(starts.names + name))
}

// Puts the variables of a type last, under what is bound, each once.
fn add_variables(
    alloc: Global,
    types: &Types,
    subst: &Subst,
    ty: Ty,
    vars: &mut Row<TyVar>,
) -> Result<(), NoMemory>
    requires bindings { AreBindings types.now subst.now.bound }
    requires here { ty.0 < length types.now }
    requires vars { AreVars types.now vars.old }
    ensures forms { AreForms types.now }
    ensures vars { IfOk result (λ _. AreVars types.now vars.new) }
    ensures kept { IfOk result (λ _. (v : TyVar) → IsAmong v vars.old → IsAmong v vars.new) }
    ensures each { IfOk result (λ _. AllVars (λ u. IsAmong u vars.new) (under types.now (meant types.now subst.now.bound) ty.0)) }
{
    // Opens the invariant of the types.
    let _ = &types.forms;
    let more = variables(alloc, types, subst, ty)?;
    add_once(vars, &more)?;
    Ok(())
}

// The variables of the types of these names.
fn name_variables(
    alloc: Global,
    bare: &Bare,
    starts: &Starts,
    unknowns: &Unknowns,
    names: &[u32],
) -> Result<Row<TyVar>, NoMemory>
    requires bindings { AreBindings unknowns.now.types unknowns.now.subst.bound }
    requires laid { AreLaidOut bare.now unknowns.now.types starts.now }
    ensures vars { IfOk result (λ vars. AreVars unknowns.now.types vars) }
    ensures each { IfOk result (λ vars. AllByRecursion (λ x. AllVars (λ u. IsAmong u vars) (meaning unknowns.now (name_var bare.now x))) names.now) }
{
    let mut vars = Row::new(alloc);
    'names: for name in names {
        let ty = name_ty(bare, starts, *name)?;
        add_variables(alloc, &unknowns.types, &unknowns.subst, ty, &mut vars)?;
    }
    Ok(vars)
}

// Whether what stands on the right side may be generalised.
fn is_plain(plain: &[bool], right: Option<u32>) -> bool
    ensures { result ≡ plain_right plain.now right }
{
    match right {
        Some(node) => (node as usize) < plain.len() && plain[node as usize],
        None => false,
    }
}

// The variables that the names of a binding may generalise.
fn variables_of(
    alloc: Global,
    bare: &Bare,
    plain: &[bool],
    starts: &Starts,
    unknowns: &Unknowns,
    right: Option<u32>,
    names: &[u32],
) -> Result<Row<TyVar>, NoMemory>
    requires numbered { IsNumbered bare.now.nodes }
    requires bindings { AreBindings unknowns.now.types unknowns.now.subst.bound }
    requires laid { AreLaidOut bare.now unknowns.now.types starts.now }
    requires plain { IsPlainTable bare.now.nodes plain.now }
    ensures { IfOk result (λ vars. IsFoundAt bare.now (meaning unknowns.now) unknowns.now.types right names.now vars) }
{
    if !is_plain(plain, right) {
        return Ok(Row::new(alloc));
    }
    name_variables(alloc, bare, starts, unknowns, names)
}

// The names of a binding, with what they may generalise.
fn group(
    alloc: Global,
    bare: &Bare,
    plain: &[bool],
    starts: &Starts,
    unknowns: &Unknowns,
    right: Option<u32>,
    names: Row<u32>,
) -> Result<Group, NoMemory>
    requires numbered { IsNumbered bare.now.nodes }
    requires bindings { AreBindings unknowns.now.types unknowns.now.subst.bound }
    requires laid { AreLaidOut bare.now unknowns.now.types starts.now }
    requires plain { IsPlainTable bare.now.nodes plain.now }
    ensures of { IfOk result (λ g. g.of ≡ together right names) }
    ensures found { IfOk result (λ g. IsFoundAt bare.now (meaning unknowns.now) unknowns.now.types right names g.vars) }
{
    let vars = variables_of(alloc, bare, plain, starts, unknowns, right, names.items())?;
    Ok(Group {
        of: Together { right, names },
        vars,
    })
}

fn one_name(alloc: Global, name: u32) -> Result<Row<u32>, NoMemory>
    ensures { IfOk result (λ names. names ≡ name ∷ []) }
{
    let mut names = Row::new(alloc);
    names.push(name)?;
    Ok(names)
}

fn of_bindings(
    alloc: Global,
    bare: &Bare,
    plain: &[bool],
    starts: &Starts,
    unknowns: &Unknowns,
    bindings: &[Binding],
) -> Result<Vec<Group>, NoMemory>
    requires numbered { IsNumbered bare.now.nodes }
    requires bindings { AreBindings unknowns.now.types unknowns.now.subst.bound }
    requires laid { AreLaidOut bare.now unknowns.now.types starts.now }
    requires plain { IsPlainTable bare.now.nodes plain.now }
    ensures { IfOk result (λ groups. AreFound bare.now (meaning unknowns.now) unknowns.now.types (of_bindings bare.now.nodes bindings.now) groups.items) }
{
    let mut groups = Vec::new(alloc);
    'bindings: for binding in bindings {
        let names = Row::from_vec(pattern_names(alloc, bare, binding.pat)?);
        groups.push(group(
            alloc,
            bare,
            plain,
            starts,
            unknowns,
            Some(binding.right),
            names,
        )?)?;
    }
    Ok(groups)
}

fn of_group(
    alloc: Global,
    bare: &Bare,
    plain: &[bool],
    starts: &Starts,
    unknowns: &Unknowns,
    bindings: &[RecBinding],
) -> Result<Vec<Group>, NoMemory>
    requires numbered { IsNumbered bare.now.nodes }
    requires bindings { AreBindings unknowns.now.types unknowns.now.subst.bound }
    requires laid { AreLaidOut bare.now unknowns.now.types starts.now }
    requires plain { IsPlainTable bare.now.nodes plain.now }
    ensures { IfOk result (λ groups. AreFound bare.now (meaning unknowns.now) unknowns.now.types (of_group bindings.now) groups.items) }
{
    let mut groups = Vec::new(alloc);
    'bindings: for binding in bindings {
        let names = one_name(alloc, binding.name.0)?;
        groups.push(group(
            alloc,
            bare,
            plain,
            starts,
            unknowns,
            Some(binding.right),
            names,
        )?)?;
    }
    Ok(groups)
}

// An exception's name, which generalises nothing.
fn of_exception(
    alloc: Global,
    bare: &Bare,
    plain: &[bool],
    starts: &Starts,
    unknowns: &Unknowns,
    name: u32,
) -> Result<Vec<Group>, NoMemory>
    requires numbered { IsNumbered bare.now.nodes }
    requires bindings { AreBindings unknowns.now.types unknowns.now.subst.bound }
    requires laid { AreLaidOut bare.now unknowns.now.types starts.now }
    requires plain { IsPlainTable bare.now.nodes plain.now }
    ensures { IfOk result (λ groups. AreFound bare.now (meaning unknowns.now) unknowns.now.types (together None (name ∷ []) ∷ []) groups.items) }
{
    let names = one_name(alloc, name)?;
    let mut groups = Vec::new(alloc);
    groups.push(group(alloc, bare, plain, starts, unknowns, None, names)?)?;
    Ok(groups)
}

// Whether an exception constructor is settled, and generalises nothing.
fn is_con_plain(settled: &[Option<Settled>], con: Con) -> bool
    ensures { (forms : List TyForm) → IsTrue result → IsConPlain (settled_at forms settled.now) con }
{
    match con {
        Con::Exn { name, .. } => match settled.get(name.0 as usize) {
            Some(Some(found)) => found.scheme.vars.is_empty(),
            _ => false,
        },
        _ => true,
    }
}

// The new name of an exception constructor, which generalises nothing.
fn of_renaming(
    alloc: Global,
    bare: &Bare,
    plain: &[bool],
    starts: &Starts,
    settled: &[Option<Settled>],
    unknowns: &Unknowns,
    name: u32,
    con: Con,
) -> Result<Vec<Group>, NoMemory>
    requires numbered { IsNumbered bare.now.nodes }
    requires bindings { AreBindings unknowns.now.types unknowns.now.subst.bound }
    requires laid { AreLaidOut bare.now unknowns.now.types starts.now }
    requires plain { IsPlainTable bare.now.nodes plain.now }
    ensures found { IfOk result (λ groups. AreFound bare.now (meaning unknowns.now) unknowns.now.types (together None (name ∷ []) ∷ []) groups.items) }
    ensures plain { IfOk result (λ _. IsConPlain (settled_at unknowns.now.types settled.now) con) }
{
    if !is_con_plain(settled, con) {
        return Err(NoMemory);
    }
    let groups = of_exception(alloc, bare, plain, starts, unknowns, name)?;
    Ok(groups)
}

fn none(alloc: Global) -> Vec<Group>
    ensures { result.items ≡ [] }
{
    Vec::new(alloc)
}

/// The names of each binding of a declaration, with what they may generalise.
pub(crate) fn groups_of(
    alloc: Global,
    bare: &Bare,
    plain: &[bool],
    starts: &Starts,
    settled: &[Option<Settled>],
    unknowns: &Unknowns,
    dec: u32,
) -> Result<Vec<Group>, NoMemory>
    requires numbered { IsNumbered bare.now.nodes }
    requires bindings { AreBindings unknowns.now.types unknowns.now.subst.bound }
    requires laid { AreLaidOut bare.now unknowns.now.types starts.now }
    requires plain { IsPlainTable bare.now.nodes plain.now }
    ensures found { IfOk result (λ groups. AllByRecursion (IsFound bare.now (meaning unknowns.now) unknowns.now.types) groups.items) }
    ensures groups { IfOk result (λ groups. (n : Node) → slice_get bare.now.nodes dec ≡ Some n → AreGroups bare.now (meaning unknowns.now) unknowns.now.types (settled_at unknowns.now.types settled.now) n groups.items) }
{
    let Some(node) = bare.nodes.items().get(dec as usize) else {
        return Err(NoMemory);
    };
    match node {
        Node::Val(_, bindings) => {
            let groups = of_bindings(alloc, bare, plain, starts, unknowns, bindings.items())?;
            Ok(groups)
        }
        Node::ValRec(_, bindings) => {
            let groups = of_group(alloc, bare, plain, starts, unknowns, bindings.items())?;
            Ok(groups)
        }
        Node::Exception(name, _) => {
            let groups = of_exception(alloc, bare, plain, starts, unknowns, name.0)?;
            Ok(groups)
        }
        Node::SameException(name, con) => {
            let groups = of_renaming(alloc, bare, plain, starts, settled, unknowns, name.0, *con)?;
            Ok(groups)
        }
        Node::Type(_) => Ok(none(alloc)),
        Node::Datatype(_) => Ok(none(alloc)),
        _ => Err(NoMemory),
    }
}
