//! The functions of bodies.

ghost use Rattle.std.specs.Prelude.{◌≡◌, ◌++◌, map, IfOk, OnOk};
ghost use Rattle.close_seen.specs.Seen.{bind_functions, body_functions, functions_of};

use cps_ir::{Bind, Body, Function};
use smlc_base::NoMemory;
use std::alloc::Global;

fn push_functions<'a>(
    found: &mut Vec<&'a Function>,
    functions: &'a [Function],
) -> Result<(), NoMemory>
    ensures { OnOk result (map (λ f. f.now) found.new.items ≡ map (λ f. f.now) found.old.items ++ functions.now) }
{
    for function in functions {
        found.push(function)?;
    }
    Ok(())
}

fn push_bind<'a>(found: &mut Vec<&'a Function>, bind: &'a Bind) -> Result<(), NoMemory>
    ensures { OnOk result (map (λ f. f.now) found.new.items ≡ map (λ f. f.now) found.old.items ++ bind_functions bind.now) }
{
    match bind {
        Bind::Fix(functions) => push_functions(found, functions.items()),
        _ => Ok(()),
    }
}

fn push_body<'a>(found: &mut Vec<&'a Function>, body: &'a Body) -> Result<(), NoMemory>
    ensures { OnOk result (map (λ f. f.now) found.new.items ≡ map (λ f. f.now) found.old.items ++ body_functions body.now) }
{
    for bind in body.binds.items() {
        push_bind(found, bind)?;
    }
    Ok(())
}

/// The functions of bodies, in the order of their bodies.
///
/// # Errors
///
/// Want of memory.
pub fn functions_of<'a>(alloc: Global, bodies: &'a [Body]) -> Result<Vec<&'a Function>, NoMemory>
    ensures { IfOk result (λ found. map (λ f. f.now) found.items ≡ functions_of bodies.now) }
{
    let mut found = Vec::new(alloc);
    for body in bodies {
        push_body(&mut found, body)?;
    }
    Ok(found)
}
