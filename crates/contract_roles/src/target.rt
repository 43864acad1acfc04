//! Functions that only call another.

ghost use Rattle.std.specs.Prelude.{◌≡◌, ℕ, ◌&&◌, not, nat_eq, Some};
ghost use Rattle.sml_tree.specs.Sets.{has};
ghost use Rattle.cps_ir.specs.Code.{Code};
ghost use Rattle.cps_ir.specs.Program.{code_of_body};
ghost use Rattle.contract_round.specs.Round.{are_vars, eta_of};
ghost use Rattle.contract_roles.specs.Roles.{is_var, eta_in};

use cps_ir::{Atom, Body, Cps, End, Function, Variable};

fn is_var(x: Variable, atom: &Atom) -> bool
    ensures { result ≡ is_var x atom.now }
{
    match atom {
        Atom::Var(y) => x == *y,
        Atom::Constant(_) => false,
    }
}

// Whether the atoms are exactly these variables, in order.
fn are_vars(params: &[Variable], atoms: &[Atom]) -> bool
    ensures { result ≡ are_vars params.now atoms.now }
{
    if params.len() != atoms.len() {
        return false;
    }
    let mut i = 0;
    while i < params.len() {
        if !is_var(params[i], &atoms[i]) {
            return false;
        }
        i += 1;
    }
    true
}

// Whether a call of this variable with these atoms is all that a function does.
fn only_calls(function: &Function, x: Variable, atoms: &[Atom]) -> bool
    ensures { result ≡ (not (nat_eq x function.now.name) && (not (has function.now.params x) && are_vars function.now.params atoms.now)) }
{
    let params = function.params.items();
    x != function.name && !params.contains(&x) && are_vars(params, atoms)
}

fn eta_of_body(body: &Body, function: &Function) -> Option<Variable>
    ensures { (part : ℕ → Code) → result ≡ eta_of function.now.name function.now.params (code_of_body part (Some body.now)) }
{
    if body.binds.len() > 0 {
        return None;
    }
    match &body.end {
        End::Call {
            function: callee,
            atoms,
        } => match callee {
            Atom::Var(x) => {
                if only_calls(function, *x, atoms.items()) {
                    Some(*x)
                } else {
                    None
                }
            }
            Atom::Constant(_) => None,
        },
        _ => None,
    }
}

/// The variable that a function calls with exactly its parameters, if it does nothing else.
pub fn eta(program: &Cps, function: &Function) -> Option<Variable>
    ensures { result ≡ eta_in program.now.bodies function.now }
{
    let bodies = program.bodies();
    match bodies.get(function.body as usize) {
        Some(body) => eta_of_body(body, function),
        None => None,
    }
}
