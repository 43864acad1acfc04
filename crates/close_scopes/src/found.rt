//! Where things are found.

ghost use Rattle.std.specs.Prelude.{◌≡◌, IfOk};
ghost use Rattle.closure_ir.specs.declared.operand.Operand.TheVariants as operand;
ghost use Rattle.close_scopes.specs.Scopes.{operand_at};

use closure_ir::{Operand, Static, Variable};
use smlc_base::{Label, NoMemory, Path};
use std::alloc::Global;

/// Where a body finds a variable, or the record of a class.
#[derive(Clone, Copy)]
pub enum Found {
    /// In this variable.
    Here(Variable),
    /// In a field of the closure that is in a variable.
    Field {
        closure: Variable,
        field: u32,
    },
    /// In a field of the record that is in a field of the closure.
    Shared {
        closure: Variable,
        record: u32,
        field: u32,
    },
    /// The block of this number in the group that is being made.
    New(u32),
    /// A closed function.
    Static(Label),
}

fn path(alloc: Global, var: Variable, steps: &[u32]) -> Result<Operand, NoMemory>
    ensures { IfOk result (λ o. o ≡ operand.Path var steps.now) }
{
    let steps = Path::from_steps(alloc, steps)?;
    Ok(Operand::Path { var, steps })
}

impl Found {
    /// What is read there.
    pub fn operand(self, alloc: Global) -> Result<Operand, NoMemory>
        ensures { IfOk result (λ o. o ≡ operand_at self) }
    {
        match self {
            Found::Here(var) => path(alloc, var, &[]),
            Found::Field { closure, field } => path(alloc, closure, &[field]),
            Found::Shared {
                closure,
                record,
                field,
            } => path(alloc, closure, &[record, field]),
            Found::New(block) => Ok(Operand::New(block)),
            Found::Static(label) => Ok(Operand::Static(Static::Function(label))),
        }
    }
}
