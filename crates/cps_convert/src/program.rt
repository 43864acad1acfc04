//! All bodies of a program.

ghost use Rattle.std.specs.Prelude.{◌≡◌, IfOk};
ghost use Rattle.convert_laws.specs.Facts.{AreNumbered};
ghost use Rattle.cps_convert.specs.Made.{IsBeginning, AreMade};

use convert_bodies::write_bodies;
use convert_decide::table::fact_in;
use convert_decide::{facts, own_by_16};
use convert_scopes::Scopes;
use convert_steps::source::Source;
use convert_steps::task::{Awaits, Continuation, Frame, Task, Work};
use convert_steps::world::World;
use cps_ir::{Atom, Body, Constant};
use lambda_ir::Term;
use smlc_base::{NoMemory, Row, Site};
use std::alloc::Global;

/// The bodies of a program, and the number that its variables are below.
#[derive(Drop)]
pub struct Made {
    pub bodies: Row<Body>,
    pub variables: u32,
}

// Term 0, in the empty scope; behind its value the program ends.
fn beginning(alloc: Global, names: usize) -> Result<World, NoMemory>
    ensures { IfOk result IsBeginning }
{
    let mut frames = Row::new(alloc);
    frames.push(Frame {
        awaits: Awaits::End,
        scope: 0,
        continuation: Continuation::Known(Atom::Constant(Constant::Nothing)),
    })?;
    let mut tasks = Row::new(alloc);
    tasks.push(Task {
        work: Work::Term(0),
        scope: 0,
        continuation: Continuation::Text(0),
        next: 0,
    })?;
    let scopes = Scopes::new(alloc, names)?;
    Ok(World {
        scopes,
        frames,
        tasks,
    })
}

/// The bodies of a program with so many names.
///
/// # Errors
///
/// Want of memory, also where there are no more numbers for bodies or variables.
pub fn make(alloc: Global, terms: &[Term], sites: &[Site], names: usize) -> Result<Made, NoMemory>
    requires { AreNumbered terms.now }
    ensures { IfOk result (λ m. AreMade terms.now sites.now m.bodies m.variables) }
{
    let facts = facts(alloc, terms)?;
    let own = own_by_16(alloc, terms, sites, facts.items())?;
    let source = Source {
        alloc,
        terms,
        facts: facts.items(),
        own: own.items(),
    };
    let mut world = beginning(alloc, names)?;
    let bodies = write_bodies(source, &mut world)?;
    let variables = fact_in(facts.items(), 0).size;
    Ok(Made { bodies, variables })
}
