//! The walks over the bodies of a program.

ghost use Rattle.std.specs.Prelude.{◌≡◌, ◌++◌, ◌||◌, slice_get, OnOk, IfOk};
ghost use Rattle.sml_tree.specs.Sets.{union};
ghost use Rattle.cps_ir.specs.Program.{code_at};
ghost use Rattle.cps_free.specs.Same.{AreSame};
ghost use Rattle.close_laws.specs.Layouts.{values};
ghost use Rattle.close_laws.specs.Close.{compares};
ghost use Rattle.used_values.specs.Own.{own_at, compares_at, is_comparison, parts_at};

use crate::own::use_body;
use crate::parts::{push, push_parts};
use cps_ir::{Body, Cps, End};
use smlc_base::NoMemory;
use std::alloc::Global;
use std::collections::BTreeSet;

fn use_at(set: &mut BTreeSet<u32>, bodies: &[Body], i: u32) -> Result<(), NoMemory>
    ensures { OnOk result (AreSame set.new.keys (union (own_at (slice_get bodies.now i)) set.old.keys)) }
{
    match bodies.get(i as usize) {
        Some(body) => use_body(set, body),
        None => Ok(()),
    }
}

fn push_at(work: &mut Vec<u32>, bodies: &[Body], i: u32) -> Result<(), NoMemory>
    ensures { OnOk result (work.new.items ≡ work.old.items ++ parts_at (slice_get bodies.now i)) }
{
    match bodies.get(i as usize) {
        Some(body) => push_parts(work, body),
        None => Ok(()),
    }
}

/// The variables that are used as values.
pub fn used_values(alloc: Global, program: &Cps) -> Result<BTreeSet<u32>, NoMemory>
    ensures { IfOk result (λ s. AreSame s.keys (values (code_at program.now.bodies 0))) }
{
    let bodies = program.bodies();
    let mut set = BTreeSet::new(alloc);
    let mut work = Vec::new(alloc);
    push(&mut work, 0)?;
    while let Some(i) = work.pop() {
        use_at(&mut set, bodies, i)?;
        push_at(&mut work, bodies, i)?;
    }
    Ok(set)
}

fn ends_so(end: &End) -> bool
    ensures { result ≡ is_comparison end.now }
{
    match end {
        End::Equal { .. } => true,
        _ => false,
    }
}

fn compares_body(bodies: &[Body], i: u32) -> bool
    ensures { result ≡ compares_at (slice_get bodies.now i) }
{
    match bodies.get(i as usize) {
        Some(body) => ends_so(&body.end),
        None => false,
    }
}

/// Whether a comparison stands in a program.
pub fn has_comparison(alloc: Global, program: &Cps) -> Result<bool, NoMemory>
    ensures { IfOk result (λ b. b ≡ compares (code_at program.now.bodies 0)) }
{
    let bodies = program.bodies();
    let mut found = false;
    let mut work = Vec::new(alloc);
    push(&mut work, 0)?;
    while let Some(i) = work.pop() {
        found |= compares_body(bodies, i);
        push_at(&mut work, bodies, i)?;
    }
    Ok(found)
}
