//! Bindings of one variable.

ghost use Rattle.std.specs.Prelude.{◌≡◌, IfOk, OnOk};
ghost use Rattle.contract_laws.specs.Contract.{is_pure};
ghost use Rattle.contract_binds.specs.Binds.{is_known_kind, entered, make_left, make_blocks, pick_kept, pick_places, prim_left};

use contract_census::{Count, count_of};
use contract_known::{Block, atom_in, atoms_in, known_field};
use cps_ir::{Atom, Bind, Shape, Variable};
use smlc_base::{NoMemory, Primitive, Row};
use std::alloc::Global;

fn is_known_kind(shape: Shape) -> bool
    ensures { result ≡ is_known_kind shape }
{
    match shape {
        Shape::Tuple => true,
        Shape::Applied(_) => true,
        _ => false,
    }
}

// A block of a variable, where it is of a kind that is known.
fn enter(
    alloc: Global,
    blocks: &mut Vec<Option<Block>>,
    root: u32,
    var: Variable,
    shape: Shape,
    atoms: &[Atom],
) -> Result<(), NoMemory>
    ensures { OnOk result (blocks.new.items ≡ entered root var shape atoms.now blocks.old.items) }
{
    let i = var as usize;
    if is_known_kind(shape) {
        if i < blocks.len() {
            let atoms = Row::from_vec(Vec::from_slice(alloc, atoms)?);
            blocks[i] = Some(Block { root, shape, atoms });
        }
    }
    Ok(())
}

/// What is left of a new block, and the block in the table.
pub fn walk_make(
    alloc: Global,
    counts: &[Count],
    root: u32,
    places: &[Atom],
    blocks: &mut Vec<Option<Block>>,
    var: Variable,
    shape: Shape,
    atoms: &[Atom],
) -> Result<Option<Bind>, NoMemory>
    ensures left { IfOk result (λ o. o ≡ make_left counts.now places.now var shape atoms.now) }
    ensures blocks { OnOk result (blocks.new.items ≡ make_blocks counts.now root places.now var shape atoms.now blocks.old.items) }
{
    if count_of(counts, var).uses.is_never() {
        return Ok(None);
    }
    let atoms = atoms_in(alloc, places, atoms)?;
    enter(alloc, blocks, root, var, shape, atoms.items())?;
    Ok(Some(Bind::Make { var, shape, atoms }))
}

/// What is left of a field of a block, and the atom in its place in the table.
pub fn walk_pick(
    counts: &[Count],
    root: u32,
    places: &mut Vec<Atom>,
    blocks: &[Option<Block>],
    var: Variable,
    field: u32,
    of: Atom,
) -> Option<Bind>
    ensures left { result ≡ pick_kept counts.now root places.old.items blocks.now var field of }
    ensures places { places.new.items ≡ pick_places counts.now root places.old.items blocks.now var field of }
{
    if count_of(counts, var).uses.is_never() {
        return None;
    }
    let of = atom_in(places.as_slice(), of);
    match known_field(blocks, root, of, field) {
        Some(found) => {
            let i = var as usize;
            if i < places.len() {
                places[i] = found;
            }
            None
        }
        None => Some(Bind::Pick { var, field, of }),
    }
}

// Neither raises nor acts.
fn is_pure(primitive: Primitive) -> bool
    ensures { result ≡ is_pure primitive }
{
    match primitive {
        Primitive::Less => true,
        Primitive::Greater => true,
        Primitive::AtMost => true,
        Primitive::AtLeast => true,
        Primitive::Deref => true,
        Primitive::Ord => true,
        Primitive::Concat => true,
        Primitive::Size => true,
        Primitive::Str => true,
        Primitive::Implode => true,
        Primitive::Compare => true,
        _ => false,
    }
}

/// What is left of the result of a primitive.
pub fn walk_prim(
    alloc: Global,
    counts: &[Count],
    places: &[Atom],
    var: Variable,
    primitive: Primitive,
    atoms: &[Atom],
) -> Result<Option<Bind>, NoMemory>
    ensures { IfOk result (λ o. o ≡ prim_left counts.now places.now var primitive atoms.now) }
{
    if is_pure(primitive) && count_of(counts, var).uses.is_never() {
        return Ok(None);
    }
    let atoms = atoms_in(alloc, places, atoms)?;
    Ok(Some(Bind::Prim {
        var,
        primitive,
        atoms,
    }))
}
