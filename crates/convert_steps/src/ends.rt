//! Blocks that are made, primitives and constructors.

ghost use Rattle.std.specs.Prelude.{◌≡◌, ℕ, Bool, List, IfOk};
ghost use Rattle.lambda_ir.specs.declared.term.Term.{Term};
ghost use Rattle.convert_laws.specs.Convert.{make, primitive, builtin, constructor};
ghost use Rattle.convert_scopes.specs.Scopes.{atom_in};
ghost use Rattle.convert_steps.specs.Ends.{atom_by, listed, plain_code, comparison, constructor_shape, constructor_atoms};
ghost use Rattle.convert_steps.specs.Writes.{Writes};
ghost use Rattle.convert_steps.specs.declared.task.Step.TheVariants.{Go};
ghost use Rattle.convert_steps.specs.declared.world.World.{World};

use crate::source::fields_taken;
use crate::task::{Continuation, Step, Task, Work};
use convert_decide::sizes::sum;
use convert_decide::takes_one;
use convert_pieces::{Fields, con_atom, pick_fields};
use convert_scopes::Scopes;
use cps_ir::{Atom, Bind, Constant, End, Shape};
use sml_tree::bare::Con;
use smlc_base::{NoMemory, Primitive, Row};
use std::alloc::Global;

/// The continuation as an atom.
pub fn atom_by(continuation: Continuation) -> Atom
    ensures { result ≡ atom_by continuation }
{
    match continuation {
        Continuation::Known(atom) => atom,
        Continuation::Text(_) => Atom::Constant(Constant::Nothing),
    }
}

/// A block is made, and is the value.
///
/// # Errors
///
/// Want of memory.
pub fn make(
    binds: &mut Row<Bind>,
    shape: Shape,
    atoms: Row<Atom>,
    scope: u32,
    continuation: Continuation,
    next: u32,
) -> Result<Task, NoMemory>
    ensures { IfOk result (λ t. (own : ℕ → Bool) (terms : List Term) (w : World) → Writes own terms w binds.old w binds.new (λ σ κ. make shape atoms κ next) scope continuation (Go t)) }
{
    binds.push(Bind::Make {
        var: next,
        shape,
        atoms,
    })?;
    let later = sum(next, 1)?;
    Ok(Task {
        work: Work::Give(Atom::Var(next)),
        scope,
        continuation,
        next: later,
    })
}

// A primitive that isn't a comparison.
fn plain(
    binds: &mut Row<Bind>,
    operation: Primitive,
    atoms: Row<Atom>,
    scope: u32,
    continuation: Continuation,
    next: u32,
) -> Result<Step, NoMemory>
    ensures { IfOk result (λ s. (own : ℕ → Bool) (terms : List Term) (w : World) → Writes own terms w binds.old w binds.new (λ σ κ. plain_code operation κ atoms next) scope continuation s) }
{
    binds.push(Bind::Prim {
        var: next,
        primitive: operation,
        atoms,
    })?;
    let later = sum(next, 1)?;
    Ok(Step::Go(Task {
        work: Work::Give(Atom::Var(next)),
        scope,
        continuation,
        next: later,
    }))
}

/// Whether a comparison of two atoms answers true where they are equal, if it is one.
fn comparison(operation: Primitive, atoms: &[Atom]) -> Option<Compared>
    ensures { result ≡ comparison operation atoms.now }
{
    let [left, right] = atoms else {
        return None;
    };
    match operation {
        Primitive::Equal => Some(Compared {
            left: *left,
            right: *right,
            truth: true,
        }),
        Primitive::Unequal => Some(Compared {
            left: *left,
            right: *right,
            truth: false,
        }),
        _ => None,
    }
}

/// Two atoms that are compared, and the answer where they are equal.
#[derive(Clone, Copy)]
pub struct Compared {
    pub left: Atom,
    pub right: Atom,
    pub truth: bool,
}

/// A primitive of atoms; a comparison calls its continuation.
///
/// # Errors
///
/// Want of memory.
fn primitive(
    binds: &mut Row<Bind>,
    operation: Primitive,
    atoms: Row<Atom>,
    scope: u32,
    continuation: Continuation,
    next: u32,
) -> Result<Step, NoMemory>
    ensures { IfOk result (λ s. (own : ℕ → Bool) (terms : List Term) (w : World) → Writes own terms w binds.old w binds.new (λ σ κ. primitive operation κ atoms next) scope continuation s) }
{
    match comparison(operation, atoms.items()) {
        Some(Compared { left, right, truth }) => Ok(Step::Stop(End::Equal {
            left,
            right,
            truth,
            next: atom_by(continuation),
        })),
        None => plain(binds, operation, atoms, scope, continuation, next),
    }
}

// One atom, or two.
fn listed(alloc: Global, first: Option<Atom>, last: Atom) -> Result<Row<Atom>, NoMemory>
    ensures { IfOk result (λ r. r ≡ listed first last) }
{
    let mut atoms = Row::new(alloc);
    if let Some(atom) = first {
        atoms.push(atom)?;
    }
    atoms.push(last)?;
    Ok(atoms)
}

/// A primitive of a value, which may be the tuple of its arguments.
///
/// # Errors
///
/// Want of memory.
pub fn builtin(
    alloc: Global,
    binds: &mut Row<Bind>,
    operation: Primitive,
    value: Atom,
    scope: u32,
    continuation: Continuation,
    next: u32,
) -> Result<Step, NoMemory>
    ensures { IfOk result (λ s. (own : ℕ → Bool) (terms : List Term) (w : World) → Writes own terms w binds.old w binds.new (λ σ κ. builtin operation κ value next) scope continuation s) }
{
    if takes_one(operation) {
        let atoms = listed(alloc, None, value)?;
        return primitive(binds, operation, atoms, scope, continuation, next);
    }
    let fields = pick_fields(alloc, binds, fields_taken(operation), value, next)?;
    let Fields { atoms, next } = fields;
    primitive(binds, operation, atoms, scope, continuation, next)
}

fn constructor_shape(constructor: Con) -> Shape
    ensures { result ≡ constructor_shape constructor }
{
    match constructor {
        Con::Data { number, .. } => Shape::Applied(number),
        Con::Ref => Shape::Cell,
        Con::Exn { .. } => Shape::Packet,
        Con::Library(_) => Shape::Packet,
    }
}

fn constructor_atoms(
    alloc: Global,
    scopes: &Scopes,
    constructor: Con,
    value: Atom,
) -> Result<Row<Atom>, NoMemory>
    ensures { IfOk result (λ r. r ≡ constructor_atoms (atom_in scopes.now.table) constructor value) }
{
    match constructor {
        Con::Exn { .. } => listed(alloc, Some(con_atom(scopes, constructor)), value),
        Con::Library(_) => listed(alloc, Some(con_atom(scopes, constructor)), value),
        _ => listed(alloc, None, value),
    }
}

/// A constructor of a value makes a block, in the present scope.
///
/// # Errors
///
/// Want of memory.
pub fn construct(
    alloc: Global,
    scopes: &Scopes,
    binds: &mut Row<Bind>,
    made: Con,
    value: Atom,
    continuation: Continuation,
    next: u32,
) -> Result<Task, NoMemory>
    ensures { IfOk result (λ t. (own : ℕ → Bool) (terms : List Term) (w : World) → w.scopes ≡ scopes.now → Writes own terms w binds.old w binds.new (λ σ κ. constructor σ made κ value next) scopes.now.present continuation (Go t)) }
{
    let atoms = constructor_atoms(alloc, scopes, made, value)?;
    make(
        binds,
        constructor_shape(made),
        atoms,
        scopes.present(),
        continuation,
        next,
    )
}
