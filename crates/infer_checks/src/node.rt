//! What a typing asks of a node beside its rule.

ghost use Rattle.std.specs.Prelude.{◌≡◌, ◌<◌, true, false, Some, Ok, List, [], ◌∷◌, length, slice_get, IfOk};
ghost use Rattle.std.specs.List.{AllByRecursion};
ghost use Rattle.sml_tree.specs.BareParts.{IsNumbered};
ghost use Rattle.sml_tree.specs.declared.bare.Node.{Node};
ghost use Rattle.sml_types.specs.Escape.{mentions};
ghost use Rattle.sml_types.specs.Poly.{Context};
ghost use Rattle.sml_types.specs.declared.types.TyForm.{TyForm};
ghost use Rattle.sml_unify.specs.Solved.{AreBindings};
ghost use Rattle.infer_parts.specs.Plain.{IsPlainTable};
ghost use Rattle.infer_state.specs.Fits.{AreThere, AreBodies, settled_at};
ghost use Rattle.infer_state.specs.Names.{names_bound};
ghost use Rattle.infer_state.specs.Steps.{IsState};
ghost use Rattle.infer_state.specs.Typings.{IsFinished};
ghost use Rattle.infer_state.specs.Variables.{AreLaidOut, node_var};
ghost use Rattle.infer_scopes.specs.Prefix.{IsPrefix};
ghost use Rattle.infer_scopes.specs.Scopes.{contexts_of, AllOpen};
ghost use Rattle.infer_closing.specs.Closing.{meaning};
ghost use Rattle.infer_closing.specs.Open.{closed_at};
ghost use Rattle.infer_checks.specs.Checked.{AreEnding, IsNoTypeDeclaration, IsUnchecked, IsRefused, ended, ending};
ghost use Rattle.infer_checks.specs.Ending.{HasVars, AreMatchedNames, IsKnownIfNamed};
ghost use Rattle.infer_checks.specs.Node.{IsGiven, NoneHas, Asks, IsGeneralised, IsDeclaredWell, MayBeDeclared};

use crate::known::is_known;
use crate::matched::{are_matched, are_plain};
use crate::values::{check_bindings, check_rec_bindings, is_declared_well};
use infer_scopes::Scopes;
use infer_state::{Declared, Failure, Settled, Starts, Unknowns};
use sml_tree::bare::{Binding, RecBinding, Rule};
use sml_tree::{Bare, Node};
use sml_types::{Ty, TyVar};
use sml_unify::resolve::Rename;
use smlc_base::{Name, NoMemory, Row};
use std::alloc::Global;

// What a test says: no typing, where it fails.
fn verdict(tested: Result<bool, NoMemory>) -> Result<(), Failure>
    ensures passed { IfOk result (λ _. tested ≡ Ok true) }
    ensures refused { IsRefused result (tested ≡ Ok false) }
{
    match tested {
        Ok(true) => Ok(()),
        Ok(false) => Err(Failure::Untypable),
        Err(_) => Err(Failure::NoMemory),
    }
}

// The names of a match.
fn check_rules(
    alloc: Global,
    bare: &Bare,
    starts: &Starts,
    scopes: &Scopes,
    settled: &[Option<Settled>],
    unknowns: &Unknowns,
    node: u32,
    rules: &Row<Rule>,
) -> Result<(), Failure>
    requires numbered { IsNumbered bare.now.nodes }
    requires bindings { AreBindings unknowns.now.types unknowns.now.subst.bound }
    requires laid { AreLaidOut bare.now unknowns.now.types starts.now }
    ensures finished { IfOk result (λ _. (c : Context) → contexts_of scopes.now node ≡ Some c → AllByRecursion (λ r. AreMatchedNames bare.now (settled_at unknowns.now.types settled.now) (meaning unknowns.now) c (names_bound bare.now.nodes r.pat)) rules.now) }
    ensures refused { IsRefused result ((c : Context) → contexts_of scopes.now node ≡ Some c → AllByRecursion (λ r. AllByRecursion (IsKnownIfNamed bare.now (meaning unknowns.now) c) (names_bound bare.now.nodes r.pat)) rules.now → ⊥) }
{
    let all = rules.items();
    verdict(are_matched(alloc, bare, starts, scopes, settled, unknowns, node, all))
}

// The type of an expression behind a declaration.
fn check_let(
    alloc: Global,
    bare: &Bare,
    starts: &Starts,
    scopes: &Scopes,
    unknowns: &Unknowns,
    node: u32,
) -> Result<(), Failure>
    requires bindings { AreBindings unknowns.now.types unknowns.now.subst.bound }
    requires laid { AreLaidOut bare.now unknowns.now.types starts.now }
    requires here { node < length bare.now.nodes }
    ensures finished { IfOk result (λ _. (c : Context) → contexts_of scopes.now node ≡ Some c → mentions c.type_names (meaning unknowns.now (node_var bare.now node)) ≡ true) }
    ensures refused { IsRefused result ((c : Context) → contexts_of scopes.now node ≡ Some c → mentions c.type_names (meaning unknowns.now (node_var bare.now node)) ≡ true → ⊥) }
{
    // What holds of all forms.
    let _ = unknowns.types.forms();
    verdict(is_known(alloc, scopes, unknowns, node, Ty(starts.nodes + node)))
}

// The name of an exception constructor.
fn check_exception(settled: &[Option<Settled>], name: Name) -> Result<(), Failure>
    ensures finished { IfOk result (λ _. (forms : List TyForm) → HasVars [] (settled_at forms settled.now name.0)) }
    ensures refused { IsRefused result ⊥ }
{
    let names = [name.0];
    if are_plain(settled, &names) {
        Ok(())
    } else {
        Err(Failure::NoMemory)
    }
}

// The bindings, the names and the explicit type variables of a value declaration.
fn check_values(
    alloc: Global,
    bare: &Bare,
    starts: &Starts,
    scopes: &Scopes,
    plain: &[bool],
    settled: &[Option<Settled>],
    general: &[Option<Row<TyVar>>],
    unknowns: &Unknowns,
    renames: &[Rename],
    node: u32,
    tyvars: &Row<u32>,
    bindings: &Row<Binding>,
) -> Result<(), Failure>
    requires numbered { IsNumbered bare.now.nodes }
    requires bindings { AreBindings unknowns.now.types unknowns.now.subst.bound }
    requires laid { AreLaidOut bare.now unknowns.now.types starts.now }
    requires there { AreThere unknowns.now.types settled.now }
    requires plain { IsPlainTable bare.now.nodes plain.now }
    requires closed { AllOpen (closed_at (settled_at unknowns.now.types settled.now)) scopes.now }
    ensures general { IfOk result (λ _. (c : Context) → contexts_of scopes.now node ≡ Some c → AllByRecursion (λ b. IsGeneralised bare.now (settled_at unknowns.now.types settled.now) (ending unknowns.now renames.now) general.now c b.right (names_bound bare.now.nodes b.pat)) bindings.now) }
    ensures declared { IfOk result (λ _. (c : Context) → contexts_of scopes.now node ≡ Some c → IsDeclaredWell bare.now (settled_at unknowns.now.types settled.now) (meaning unknowns.now) (ending unknowns.now renames.now) c tyvars.now (names_bound bare.now.nodes node)) }
    ensures refused { IsRefused result ((c : Context) → contexts_of scopes.now node ≡ Some c → MayBeDeclared bare.now (settled_at unknowns.now.types settled.now) (meaning unknowns.now) (ending unknowns.now renames.now) c tyvars.now (names_bound bare.now.nodes node) → ⊥) }
{
    let explicit = tyvars.items();
    let all = bindings.items();
    match check_bindings(
        alloc, bare, starts, scopes, plain, settled, general, unknowns, renames, node, all,
    ) {
        Ok(()) => verdict(is_declared_well(
            alloc, bare, starts, scopes, settled, unknowns, renames, node, explicit,
        )),
        Err(_) => Err(Failure::NoMemory),
    }
}

// The same of a recursive one.
fn check_group(
    alloc: Global,
    bare: &Bare,
    starts: &Starts,
    scopes: &Scopes,
    plain: &[bool],
    settled: &[Option<Settled>],
    general: &[Option<Row<TyVar>>],
    unknowns: &Unknowns,
    renames: &[Rename],
    node: u32,
    tyvars: &Row<u32>,
    bindings: &Row<RecBinding>,
) -> Result<(), Failure>
    requires numbered { IsNumbered bare.now.nodes }
    requires bindings { AreBindings unknowns.now.types unknowns.now.subst.bound }
    requires laid { AreLaidOut bare.now unknowns.now.types starts.now }
    requires there { AreThere unknowns.now.types settled.now }
    requires plain { IsPlainTable bare.now.nodes plain.now }
    requires closed { AllOpen (closed_at (settled_at unknowns.now.types settled.now)) scopes.now }
    ensures general { IfOk result (λ _. (c : Context) → contexts_of scopes.now node ≡ Some c → AllByRecursion (λ b. IsGeneralised bare.now (settled_at unknowns.now.types settled.now) (ending unknowns.now renames.now) general.now c b.right (b.name.0 ∷ [])) bindings.now) }
    ensures declared { IfOk result (λ _. (c : Context) → contexts_of scopes.now node ≡ Some c → IsDeclaredWell bare.now (settled_at unknowns.now.types settled.now) (meaning unknowns.now) (ending unknowns.now renames.now) c tyvars.now (names_bound bare.now.nodes node)) }
    ensures refused { IsRefused result ((c : Context) → contexts_of scopes.now node ≡ Some c → MayBeDeclared bare.now (settled_at unknowns.now.types settled.now) (meaning unknowns.now) (ending unknowns.now renames.now) c tyvars.now (names_bound bare.now.nodes node) → ⊥) }
{
    let explicit = tyvars.items();
    let all = bindings.items();
    match check_rec_bindings(
        alloc, bare, starts, scopes, plain, settled, general, unknowns, renames, node, all,
    ) {
        Ok(()) => verdict(is_declared_well(
            alloc, bare, starts, scopes, settled, unknowns, renames, node, explicit,
        )),
        Err(_) => Err(Failure::NoMemory),
    }
}

// Checks a node that stands in a context.
fn check_form(
    alloc: Global,
    bare: &Bare,
    declared: &Declared,
    scopes: &Scopes,
    plain: &[bool],
    settled: &[Option<Settled>],
    general: &[Option<Row<TyVar>>],
    unknowns: &Unknowns,
    renames: &[Rename],
    node: u32,
    form: &Node,
) -> Result<(), Failure>
    requires numbered { IsNumbered bare.now.nodes }
    requires plain { IsPlainTable bare.now.nodes plain.now }
    requires closed { AllOpen (closed_at (settled_at unknowns.now.types settled.now)) scopes.now }
    requires given { IsGiven bare.now declared.now (contexts_of scopes.now) settled.now general.now unknowns.now renames.now }
    requires here { node < length bare.now.nodes }
    ensures finished { IfOk result (λ _. IsNoTypeDeclaration form.now → (c : Context) → contexts_of scopes.now node ≡ Some c → IsFinished bare.now (ended bare.now declared.now (contexts_of scopes.now) settled.now general.now unknowns.now renames.now) c node form.now) }
    ensures refused { IsRefused result ((c : Context) → contexts_of scopes.now node ≡ Some c → NoneHas bare.now declared.now settled.now unknowns.now (λ t. Asks bare.now t c node form.now)) }
{
    let starts = &declared.starts;
    match form {
        Node::Case(_, rules) => check_rules(
            alloc, bare, starts, scopes, settled, unknowns, node, rules,
        ),
        Node::Fn(rules) => check_rules(alloc, bare, starts, scopes, settled, unknowns, node, rules),
        Node::Handle(_, rules) => check_rules(
            alloc, bare, starts, scopes, settled, unknowns, node, rules,
        ),
        Node::Let(_, _) => check_let(alloc, bare, starts, scopes, unknowns, node),
        Node::Val(tyvars, bindings) => check_values(
            alloc, bare, starts, scopes, plain, settled, general, unknowns, renames, node, tyvars,
            bindings,
        ),
        Node::ValRec(tyvars, bindings) => check_group(
            alloc, bare, starts, scopes, plain, settled, general, unknowns, renames, node, tyvars,
            bindings,
        ),
        Node::Exception(name, _) => check_exception(settled, *name),
        Node::SameException(name, _) => check_exception(settled, *name),
        _ => Ok(()),
    }
}

/// Checks what a typing asks of a node beside its rule.
///
/// # Errors
///
/// `Untypable` where no typing of the nodes below `count` goes with what was inferred. `NoMemory`, also where something has not been inferred.
pub(crate) fn check_node(
    alloc: Global,
    bare: &Bare,
    declared: &Declared,
    scopes: &Scopes,
    plain: &[bool],
    settled: &[Option<Settled>],
    general: &[Option<Row<TyVar>>],
    unknowns: &Unknowns,
    renames: &[Rename],
    node: u32,
    count: u32,
) -> Result<(), Failure>
    requires state { IsState declared.now.tables.names unknowns.now }
    requires laid { AreLaidOut bare.now unknowns.now.types declared.now.starts }
    requires there { AreThere unknowns.now.types settled.now }
    requires bodies { AreBodies bare.now unknowns.now (settled_at unknowns.now.types settled.now) }
    requires numbered { IsNumbered bare.now.nodes }
    requires prefix { IsPrefix bare.now.nodes count }
    requires plain { IsPlainTable bare.now.nodes plain.now }
    requires closed { AllOpen (closed_at (settled_at unknowns.now.types settled.now)) scopes.now }
    requires ending { AreEnding bare.now declared.now (contexts_of scopes.now) settled.now general.now unknowns.now renames.now }
    requires below { node < count }
    ensures finished { IfOk result (λ _. (n : Node) (c : Context) → slice_get bare.now.nodes node ≡ Some n → IsNoTypeDeclaration n → contexts_of scopes.now node ≡ Some c → IsFinished bare.now (ended bare.now declared.now (contexts_of scopes.now) settled.now general.now unknowns.now renames.now) c node n) }
    ensures refused { IsRefused result (IsUnchecked bare.now declared.now (contexts_of scopes.now) settled.now general.now unknowns.now count) }
{
    // What holds of all forms.
    let _ = unknowns.types.forms();
    if node as usize >= bare.nodes.len() || !scopes.has(node) {
        return Err(Failure::NoMemory);
    }
    let form = &bare.nodes.items()[node as usize];
    check_form(
        alloc, bare, declared, scopes, plain, settled, general, unknowns, renames, node, form,
    )
}
