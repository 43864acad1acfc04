//! The tables of a prefix of a program.

ghost use Rattle.std.specs.Prelude.{IfOk};
ghost use Rattle.sml_types.specs.Typing.{Typing, IsTypingBelow};
ghost use Rattle.infer_tables.specs.Declare.{IsDeclared, IsUntypable};

use crate::checks::check_types;
use crate::nodes::add_nodes;
use crate::starts::{Started, start};
use infer_state::{Declared, Failure, Unknowns};
use sml_tree::Bare;
use sml_unify::Subst;
use std::alloc::Global;

/// What inference starts from.
#[derive(Drop)]
pub struct Prepared {
    pub declared: Declared,
    pub unknowns: Unknowns,
}

/// The tables that the type declarations among the nodes below `count` make, and a variable for each node and name.
pub fn declare(alloc: Global, bare: &Bare, count: u32) -> Result<Prepared, Failure>
    ensures ok { IfOk result (λ made. IsDeclared bare.now count made.declared made.unknowns) }
    ensures refused { IsUntypable result ((t : Typing) → IsTypingBelow bare.now t count → ⊥) }
{
    check_types(alloc, bare)?;
    let Started {
        mut types,
        known,
        starts,
        next,
    } = start(alloc, bare)?;
    // Opens the invariant of the types.
    let _ = &types.forms;
    let Some(known) = add_nodes(alloc, bare, &mut types, known, count)? else {
        return Err(Failure::Untypable);
    };
    let declared = Declared {
        tables: known.tables,
        abbreviations: known.abbreviations,
        starts,
    };
    let unknowns = Unknowns {
        types,
        subst: Subst::new(alloc),
        next,
    };
    Ok(Prepared { declared, unknowns })
}
