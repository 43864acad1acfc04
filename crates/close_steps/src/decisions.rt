//! What closing decides of the functions and classes of a program.

ghost use Rattle.std.specs.Prelude.{◌≡◌, ◌+◌, IfOk, option_copied};
ghost use Rattle.close_steps.specs.Visible.{decided, class_members, static_of};

use closure_ir::{Operand, Static, Variable};
use lifetime_users::ClassRows;
use smlc_base::{Label, NoMemory, Row};

/// A function's label, and what its closure has: nothing at all if it is static; else perhaps a code word, then the records of classes by number, then variables.
#[derive(Drop)]
pub struct Decision {
    pub label: Label,
    pub is_static: bool,
    pub has_code: bool,
    pub classes: Row<u32>,
    pub own: Row<Variable>,
}

/// What is decided of all functions and classes of a program.
#[derive(Drop)]
pub struct Decisions {
    pub functions: Row<Decision>,
    /// The number of the function that each variable is bound to, if its binding is that of a function.
    pub numbers: Row<Option<u32>>,
    pub classes: ClassRows,
    /// The variable of the record of class 0; those of the others follow.
    pub first_record: Variable,
}

impl Decisions {
    /// What is decided of the function that a variable is bound to.
    pub fn function(&self, variable: Variable) -> Option<&Decision>
        ensures { option_copied result ≡ decided self.now variable }
    {
        match self.numbers.items().get(variable as usize) {
            Some(Some(number)) => self.functions.items().get(*number as usize),
            _ => None,
        }
    }

    /// The variables of a class.
    pub fn members(&self, class: u32) -> &[Variable]
        ensures { result.now ≡ class_members self.now class }
    {
        match self.classes.of.items().get(class as usize) {
            Some(class) => class.vars.items(),
            None => &[],
        }
    }

    /// The variable that holds the record of a class where it is made.
    ///
    /// # Errors
    ///
    /// There is no memory for more variables than numbers.
    pub fn record(&self, class: u32) -> Result<Variable, NoMemory>
        ensures { IfOk result (λ x. x ≡ self.now.first_record + class) }
    {
        match self.first_record.checked_add(class) {
            Some(variable) => Ok(variable),
            None => Err(NoMemory),
        }
    }

    /// The closed function that a variable is bound to.
    pub(crate) fn static_operand(&self, variable: Variable) -> Operand
        ensures { result ≡ static_of (decided self.now variable) }
    {
        match self.function(variable) {
            Some(function) => Operand::Static(Static::Function(function.label)),
            None => Operand::Literal(0),
        }
    }
}
