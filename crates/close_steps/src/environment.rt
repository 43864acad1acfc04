//! What a body sees.

ghost use Rattle.std.specs.Prelude.{◌≡◌, ◌≤◌, ◌∷◌, length, IfOk, OnOk, map};
ghost use Rattle.close_laws.specs.Lower.{here};
ghost use Rattle.close_scopes.specs.Scopes.{Grows, bounds, looked_up};
ghost use Rattle.close_steps.specs.Visible.{unbound, visible, places_in};

use crate::decisions::Decisions;
use close_scopes::{Bound, Found, Scope, Scopes};
use closure_ir::{Operand, Variable};
use smlc_base::NoMemory;
use std::alloc::Global;

/// Where a body finds variables and the records of classes, and whether it is of what is run first and not of a function.
#[derive(Clone, Copy)]
pub struct Environment {
    pub is_main: bool,
    pub variables: Scope,
    pub records: Scope,
}

fn unbound_operand(decisions: &Decisions, is_main: bool, variable: Variable) -> Operand
    ensures { result ≡ unbound decisions.now is_main variable }
{
    if is_main {
        Operand::Literal(0)
    } else {
        decisions.static_operand(variable)
    }
}

impl Environment {
    /// What a body reads for a variable.
    pub fn place(
        self,
        alloc: Global,
        decisions: &Decisions,
        scopes: &Scopes,
        variable: Variable,
    ) -> Result<Operand, NoMemory>
        ensures { IfOk result (λ o. o ≡ places_in decisions.now (visible scopes.now self) variable) }
    {
        match scopes.find(self.variables, variable) {
            Some(found) => found.operand(alloc),
            None => Ok(unbound_operand(decisions, self.is_main, variable)),
        }
    }
}
