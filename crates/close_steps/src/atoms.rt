//! Atoms, tests and shapes.

ghost use Rattle.std.specs.Prelude.{◌≡◌, map, IfOk};
ghost use Rattle.close_laws.specs.Lower.{constant_of, operand_of, operands_of, beyond, wanted_of, test_of, shape_of};
ghost use Rattle.close_steps.specs.Visible.{visible, places_in};
ghost use Rattle.close_steps.specs.Lowered.{target_of};

use crate::decisions::Decisions;
use crate::environment::Environment;
use close_scopes::Scopes;
use closure_ir::{Operand, Shape, Static, Target, Test, Wanted};
use cps_ir::{Atom, Constant};
use smlc_base::{NoMemory, Path, Row};
use std::alloc::Global;

fn constant(constant: Constant) -> Operand
    ensures { result ≡ constant_of constant }
{
    match constant {
        Constant::Int(number) => Operand::Literal(number),
        Constant::Char(code) => Operand::Literal(code as i64),
        Constant::Tag(number) => Operand::Literal(number as i64),
        Constant::Text(text) => Operand::Static(Static::Text(text)),
        Constant::Library(name) => Operand::Static(Static::Library(name)),
        Constant::Nothing => Operand::Literal(0),
        Constant::StdIn => Operand::Literal(0),
    }
}

/// What is read for an atom.
pub fn operand(
    alloc: Global,
    decisions: &Decisions,
    scopes: &Scopes,
    environment: Environment,
    atom: Atom,
) -> Result<Operand, NoMemory>
    ensures { IfOk result (λ o. o ≡ operand_of (places_in decisions.now (visible scopes.now environment)) atom) }
{
    match atom {
        Atom::Var(variable) => environment.place(alloc, decisions, scopes, variable),
        Atom::Constant(number) => Ok(constant(number)),
    }
}

/// What is read for atoms, in order.
pub fn operands(
    alloc: Global,
    decisions: &Decisions,
    scopes: &Scopes,
    environment: Environment,
    atoms: &[Atom],
) -> Result<Row<Operand>, NoMemory>
    ensures { IfOk result (λ os. os ≡ operands_of (places_in decisions.now (visible scopes.now environment)) atoms.now) }
{
    let mut operands = Row::new(alloc);
    for atom in atoms {
        operands.push(operand(alloc, decisions, scopes, environment, *atom)?)?;
    }
    Ok(operands)
}

/// What is read one field further.
pub(crate) fn beyond(operand: Operand, field: u32) -> Result<Operand, NoMemory>
    ensures { IfOk result (λ o. o ≡ beyond operand field) }
{
    match operand {
        Operand::Path { var, mut steps } => {
            steps.push(field)?;
            Ok(Operand::Path { var, steps })
        }
        _ => Ok(operand),
    }
}

/// What kind of block is made.
pub(crate) fn shape(shape: cps_ir::Shape) -> Shape
    ensures { result ≡ shape_of shape }
{
    match shape {
        cps_ir::Shape::Tuple => Shape::Tuple,
        cps_ir::Shape::Applied(number) => Shape::Applied(number),
        cps_ir::Shape::Cell => Shape::Cell,
        cps_ir::Shape::ExnName(name) => Shape::ExnName(name),
        cps_ir::Shape::Packet => Shape::Packet,
    }
}

fn wanted(
    alloc: Global,
    decisions: &Decisions,
    scopes: &Scopes,
    environment: Environment,
    want: cps_ir::Wanted,
) -> Result<Wanted, NoMemory>
    ensures { IfOk result (λ w. w ≡ wanted_of (places_in decisions.now (visible scopes.now environment)) want) }
{
    match want {
        cps_ir::Wanted::Num(number) => Ok(Wanted::Num(number)),
        cps_ir::Wanted::Tag(tag) => Ok(Wanted::Tag(tag)),
        cps_ir::Wanted::Text(text) => Ok(Wanted::Text(text)),
        cps_ir::Wanted::Exn { name, applied } => {
            let name = operand(alloc, decisions, scopes, environment, name)?;
            Ok(Wanted::Exn { name, applied })
        }
    }
}

fn test(
    alloc: Global,
    decisions: &Decisions,
    scopes: &Scopes,
    environment: Environment,
    test: &cps_ir::Test,
) -> Result<Test, NoMemory>
    ensures { IfOk result (λ t. t ≡ test_of (places_in decisions.now (visible scopes.now environment)) test.now) }
{
    let path = Path::from_steps(alloc, test.path.steps())?;
    let want = wanted(alloc, decisions, scopes, environment, test.want)?;
    Ok(Test { path, want })
}

/// The tests of a rule.
pub(crate) fn tests(
    alloc: Global,
    decisions: &Decisions,
    scopes: &Scopes,
    environment: Environment,
    tests: &[cps_ir::Test],
) -> Result<Row<Test>, NoMemory>
    ensures { IfOk result (λ all. all ≡ map (test_of (places_in decisions.now (visible scopes.now environment))) tests.now) }
{
    let mut all = Row::new(alloc);
    for one in tests {
        all.push(test(alloc, decisions, scopes, environment, one)?)?;
    }
    Ok(all)
}

/// Which code is called. A function that is bound to the variable is called by its label.
pub(crate) fn target(decisions: &Decisions, function: Atom) -> Target
    ensures { result ≡ target_of decisions.now function }
{
    match function {
        Atom::Var(variable) => match decisions.function(variable) {
            Some(function) => Target::Known(function.label),
            None => Target::Through,
        },
        Atom::Constant(_) => Target::Through,
    }
}
