//! Where a body finds words, what it makes, and what it asks.

ghost use Rattle.std.specs.Prelude.{◌≡◌, map, IfOk};
ghost use Rattle.place_laws.specs.Place.{source_of, building_of, want_of, test_of};
ghost use Rattle.place_bodies.specs.Steps.{at_of, rule_placed};

use crate::homes::{at, home};
use crate::words::offset;
use closure_ir::{Maker, Operand, Rule, Test, Wanted};
use placed_ir::{Building, Source};
use smlc_base::{NoMemory, Path, Row};
use std::alloc::Global;

/// Where an operand is found while this group is made.
pub(crate) fn source(
    alloc: Global,
    table: &[u32],
    makers: &[Maker],
    operand: &Operand,
) -> Result<Source, NoMemory>
    ensures { IfOk result (λ s. s ≡ source_of (at_of table.now) makers.now operand.now) }
{
    match operand {
        Operand::Path { var, steps } => {
            let home = home(at(table, *var));
            let steps = Path::from_steps(alloc, steps.steps())?;
            Ok(Source::Along { home, steps })
        }
        Operand::New(k) => {
            let words = offset(makers, *k)?;
            Ok(Source::Fresh(words))
        }
        Operand::Static(block) => Ok(Source::Static(*block)),
        Operand::Code(label) => Ok(Source::Code(*label)),
        Operand::Literal(number) => Ok(Source::Literal(*number)),
    }
}

/// Where operands are found, in order.
pub(crate) fn sources(
    alloc: Global,
    table: &[u32],
    makers: &[Maker],
    operands: &[Operand],
) -> Result<Row<Source>, NoMemory>
    ensures { IfOk result (λ all. all ≡ map (source_of (at_of table.now) makers.now) operands.now) }
{
    let mut all = Row::new(alloc);
    for operand in operands {
        all.push(source(alloc, table, makers, operand)?)?;
    }
    Ok(all)
}

fn building(
    alloc: Global,
    table: &[u32],
    makers: &[Maker],
    maker: &Maker,
) -> Result<Building, NoMemory>
    ensures { IfOk result (λ b. b ≡ building_of (at_of table.now) makers.now maker.now) }
{
    let fields = sources(alloc, table, makers, maker.fields.items())?;
    Ok(Building {
        shape: maker.shape,
        fields,
    })
}

/// The blocks of a group.
pub(crate) fn buildings(
    alloc: Global,
    table: &[u32],
    makers: &[Maker],
) -> Result<Row<Building>, NoMemory>
    ensures { IfOk result (λ all. all ≡ map (building_of (at_of table.now) makers.now) makers.now) }
{
    let mut all = Row::new(alloc);
    for maker in makers {
        all.push(building(alloc, table, makers, maker)?)?;
    }
    Ok(all)
}

fn wanted(alloc: Global, table: &[u32], want: &Wanted) -> Result<placed_ir::Wanted, NoMemory>
    ensures { IfOk result (λ w. w ≡ want_of (at_of table.now) want.now) }
{
    match want {
        Wanted::Num(number) => Ok(placed_ir::Wanted::Num(*number)),
        Wanted::Tag(tag) => Ok(placed_ir::Wanted::Tag(*tag)),
        Wanted::Text(text) => Ok(placed_ir::Wanted::Text(*text)),
        Wanted::Exn { name, applied } => {
            let name = source(alloc, table, &[], name)?;
            Ok(placed_ir::Wanted::Exn {
                name,
                applied: *applied,
            })
        }
    }
}

fn test(alloc: Global, table: &[u32], test: &Test) -> Result<placed_ir::Test, NoMemory>
    ensures { IfOk result (λ t. t ≡ test_of (at_of table.now) test.now) }
{
    let path = Path::from_steps(alloc, test.path.steps())?;
    let want = wanted(alloc, table, &test.want)?;
    Ok(placed_ir::Test { path, want })
}

fn tests(alloc: Global, table: &[u32], tests: &[Test]) -> Result<Row<placed_ir::Test>, NoMemory>
    ensures { IfOk result (λ all. all ≡ map (test_of (at_of table.now)) tests.now) }
{
    let mut all = Row::new(alloc);
    for one in tests {
        all.push(test(alloc, table, one)?)?;
    }
    Ok(all)
}

fn rule(alloc: Global, table: &[u32], rule: &Rule) -> Result<placed_ir::Rule, NoMemory>
    ensures { IfOk result (λ r. r ≡ rule_placed (at_of table.now) rule.now) }
{
    let tests = tests(alloc, table, rule.tests.items())?;
    Ok(placed_ir::Rule {
        tests,
        body: rule.body,
    })
}

/// The rules of a match.
pub(crate) fn rules(
    alloc: Global,
    table: &[u32],
    rules: &[Rule],
) -> Result<Row<placed_ir::Rule>, NoMemory>
    ensures { IfOk result (λ all. all ≡ map (rule_placed (at_of table.now)) rules.now) }
{
    let mut all = Row::new(alloc);
    for one in rules {
        all.push(rule(alloc, table, one)?)?;
    }
    Ok(all)
}
