//! Bodies of the answer, by number.

ghost use Rattle.std.specs.Prelude.{◌≡◌, [], ◌∷◌, ◌++◌, length, IfOk, OnOk};
ghost use Rattle.contract_rows.specs.Rows.{empty};
ghost use Rattle.contract_group.specs.Bodies.{with_bind, with_end};

use cps_ir::{Bind, Body, End};
use smlc_base::{NoMemory, Row};
use std::alloc::Global;

/// A number, if it fits.
pub fn number(n: usize) -> Result<u32, NoMemory>
    ensures { IfOk result (λ m. m ≡ n) }
{
    match u32::try_from(n) {
        Ok(m) => Ok(m),
        Err(_) => Err(NoMemory),
    }
}

/// One more body, which is still to be made.
pub fn put_empty(alloc: Global, bodies: &mut Vec<Body>) -> Result<u32, NoMemory>
    ensures number { IfOk result (λ n. n ≡ length bodies.old.items) }
    ensures bodies { OnOk result (bodies.new.items ≡ bodies.old.items ++ empty ∷ []) }
{
    let next = number(bodies.len())?;
    bodies.push(Body {
        binds: Row::new(alloc),
        end: End::Halt,
    })?;
    Ok(next)
}

/// One more binding in a body.
pub fn put_bind(bodies: &mut Vec<Body>, slot: u32, bind: Bind) -> Result<(), NoMemory>
    ensures { OnOk result (bodies.new.items ≡ with_bind slot bind bodies.old.items) }
{
    let i = slot as usize;
    if i < bodies.len() {
        bodies[i].binds.push(bind)?;
    }
    Ok(())
}

/// The end of a body.
pub fn put_end(bodies: &mut Vec<Body>, slot: u32, end: End)
    ensures { bodies.new.items ≡ with_end slot end bodies.old.items }
{
    let i = slot as usize;
    if i < bodies.len() {
        bodies[i].end = end;
    }
}
