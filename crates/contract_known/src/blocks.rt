//! Blocks that were made on the way.

ghost use Rattle.std.specs.Prelude.{◌≡◌};
ghost use Rattle.contract_round.specs.Round.{known_field, at_end};
ghost use Rattle.cps_ir.specs.declared.atom.Atom.TheVariants as atom;
ghost use Rattle.contract_known.specs.Known.{made_at, shape_at, field_at, is_tuple_at};

use cps_ir::{Atom, Shape, Variable};
use smlc_base::Row;

/// A tuple or an applied constructor that a variable of the answer is, made in the function whose body has the number `root`.
#[derive(Drop)]
pub struct Block {
    pub root: u32,
    pub shape: Shape,
    pub atoms: Row<Atom>,
}

/// The kind of the block that a variable is known to be.
pub fn known_shape(blocks: &[Option<Block>], root: u32, x: Variable) -> Option<Shape>
    ensures { result ≡ shape_at (made_at blocks.now root) x }
{
    match blocks.get(x as usize) {
        Some(Some(block)) => {
            if block.root == root {
                Some(block.shape)
            } else {
                None
            }
        }
        _ => None,
    }
}

fn field_of_var(blocks: &[Option<Block>], root: u32, x: Variable, i: u32) -> Option<Atom>
    ensures { result ≡ field_at (made_at blocks.now root) (atom.Var x) i }
{
    match blocks.get(x as usize) {
        Some(Some(block)) => {
            if block.root == root {
                block.atoms.items().get(i as usize).copied()
            } else {
                None
            }
        }
        _ => None,
    }
}

// A field of a known block of any kind.
fn field_at(blocks: &[Option<Block>], root: u32, atom: Atom, i: u32) -> Option<Atom>
    ensures { result ≡ field_at (made_at blocks.now root) atom i }
{
    match atom {
        Atom::Var(x) => field_of_var(blocks, root, x, i),
        Atom::Constant(_) => None,
    }
}

fn is_tuple(blocks: &[Option<Block>], root: u32, atom: Atom) -> bool
    ensures { result ≡ is_tuple_at (made_at blocks.now root) atom }
{
    match atom {
        Atom::Var(x) => match known_shape(blocks, root, x) {
            Some(Shape::Tuple) => true,
            _ => false,
        },
        Atom::Constant(_) => false,
    }
}

/// A field of a known tuple.
pub fn known_field(blocks: &[Option<Block>], root: u32, atom: Atom, i: u32) -> Option<Atom>
    ensures { result ≡ known_field (made_at blocks.now root) atom i }
{
    if is_tuple(blocks, root, atom) {
        field_at(blocks, root, atom, i)
    } else {
        None
    }
}

/// The atom at the end of a way, if all blocks on it are known.
pub fn at_end(blocks: &[Option<Block>], root: u32, atom: Atom, path: &[u32]) -> Option<Atom>
    ensures { result ≡ at_end (made_at blocks.now root) atom path.now }
{
    let mut at = atom;
    for step in path {
        match field_at(blocks, root, at, *step) {
            Some(field) => at = field,
            None => return None,
        }
    }
    Some(at)
}
