//! A body.

ghost use Rattle.std.specs.Prelude.{◌≡◌, ◌++◌, length, OnOk, IfOk};
ghost use Rattle.std.specs.List.{AllByRecursion};
ghost use Rattle.place_bodies.specs.Steps.{at_of, body_steps, end_table, end_placed};
ghost use Rattle.place_bodies.proofs.Binds.{Fits};

use crate::binds::place_bind;
use crate::sources::{rules, source, sources};
use closure_ir::{Bind, Body, End};
use placed_ir::Step;
use smlc_base::{NoMemory, Row};
use std::alloc::Global;

fn place_end(alloc: Global, end: &End, table: &[u32]) -> Result<placed_ir::End, NoMemory>
    ensures { IfOk result (λ e. e ≡ end_placed (at_of table.now) end.now) }
{
    match end {
        End::Equal {
            left,
            right,
            truth,
            next,
        } => {
            let left = source(alloc, table, &[], left)?;
            let right = source(alloc, table, &[], right)?;
            let next = source(alloc, table, &[], next)?;
            Ok(placed_ir::End::Equal {
                left,
                right,
                truth: *truth,
                next,
            })
        }
        End::Call {
            target,
            function,
            operands,
        } => {
            let function = source(alloc, table, &[], function)?;
            let sources = sources(alloc, table, &[], operands.items())?;
            Ok(placed_ir::End::Call {
                target: *target,
                function,
                sources,
            })
        }
        End::Match {
            subject,
            rules: all,
            otherwise,
        } => {
            let subject = source(alloc, table, &[], subject)?;
            let rules = rules(alloc, table, all.items())?;
            Ok(placed_ir::End::Match {
                subject,
                rules,
                otherwise: *otherwise,
            })
        }
        End::Throw(packet) => {
            let packet = source(alloc, table, &[], packet)?;
            Ok(placed_ir::End::Throw(packet))
        }
        End::Halt => Ok(placed_ir::End::Halt),
    }
}

fn place_binds(
    alloc: Global,
    binds: &[Bind],
    along: &[Row<u32>],
    table: &mut Vec<u32>,
    steps: &mut Vec<Step>,
) -> Result<(), NoMemory>
    requires fits { AllByRecursion (Fits (length table.old.items)) binds.now }
    requires len { length along.now ≡ length binds.now }
    ensures table { OnOk result (table.new.items ≡ end_table table.old.items binds.now along.now) }
    ensures steps { OnOk result (steps.new.items ≡ steps.old.items ++ body_steps table.old.items binds.now along.now) }
{
    for i in 0..binds.len() {
        place_bind(alloc, &binds[i], along[i].items(), table, steps)?;
    }
    Ok(())
}

/// What the rule of places makes of a body, with what lives behind each of its bindings and a table of the places of the variables that live before it.
pub fn place_body(
    alloc: Global,
    body: &Body,
    along: &[Row<u32>],
    table: &mut Vec<u32>,
) -> Result<placed_ir::Body, NoMemory>
    requires fits { AllByRecursion (Fits (length table.old.items)) body.now.binds }
    requires len { length along.now ≡ length body.now.binds }
    ensures steps { IfOk result (λ b. b.steps ≡ body_steps table.old.items body.now.binds along.now) }
    ensures end { IfOk result (λ b. b.end ≡ end_placed (at_of (end_table table.old.items body.now.binds along.now)) body.now.end) }
    ensures table { IfOk result (λ b. table.new.items ≡ end_table table.old.items body.now.binds along.now) }
{
    let mut steps = Vec::new(alloc);
    place_binds(alloc, body.binds.items(), along, table, &mut steps)?;
    let end = place_end(alloc, &body.end, table.as_slice())?;
    Ok(placed_ir::Body {
        steps: Row::from_vec(steps),
        end,
    })
}
