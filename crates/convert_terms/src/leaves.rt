//! Names and constants.

ghost use Rattle.std.specs.Prelude.{◌≡◌, ℕ, Bool, List, IfOk};
ghost use Rattle.lambda_ir.specs.declared.term.Term.{Term};
ghost use Rattle.cps_ir.specs.declared.body.Bind.{Bind};
ghost use Rattle.convert_scopes.specs.Scopes.{atom_in};
ghost use Rattle.convert_steps.specs.Writes.{Writes};
ghost use Rattle.convert_terms.specs.Leaves.{leaf, leaf_code};

use convert_pieces::{builtin_atom, con_atom};
use convert_scopes::Scopes;
use convert_steps::task::{Continuation, Step, Task, Work};
use convert_steps::world::World;
use cps_ir::{Atom, Constant, End};
use lambda_ir::Term;
use smlc_base::NoMemory;

// The atom that a term is, if it is no more than a name or a constant.
fn leaf(scopes: &Scopes, term: &Term) -> Option<Atom>
    ensures { result ≡ leaf (atom_in scopes.now.table) term.now }
{
    match term {
        Term::Int(number) => Some(Atom::Constant(Constant::Int(*number))),
        Term::Char(code) => Some(Atom::Constant(Constant::Char(*code))),
        Term::Text(text) => Some(Atom::Constant(Constant::Text(*text))),
        Term::Var(name) => Some(scopes.get(*name)),
        Term::Constructor(constructor) => Some(con_atom(scopes, *constructor)),
        Term::Builtin(primitive) => Some(builtin_atom(*primitive)),
        Term::Finish => Some(Atom::Constant(Constant::Nothing)),
        _ => None,
    }
}

/// The continuation gets what a name or a constant stands for in a scope. Nothing goes on behind what is no value.
///
/// # Errors
///
/// Want of memory.
pub fn give_leaf(
    world: &mut World,
    term: &Term,
    scope: u32,
    continuation: Continuation,
    next: u32,
) -> Result<Step, NoMemory>
    ensures { IfOk result (λ s. (own : ℕ → Bool) (terms : List Term) (bs : List Bind) → Writes own terms world.old bs world.new bs (λ σ κ. leaf_code (leaf σ term.now) κ next) scope continuation s) }
{
    world.scopes.go(scope)?;
    let _ = world.scopes.present();
    match leaf(&world.scopes, term) {
        Some(atom) => Ok(Step::Go(Task {
            work: Work::Give(atom),
            scope,
            continuation,
            next,
        })),
        None => Ok(Step::Stop(End::Halt)),
    }
}
