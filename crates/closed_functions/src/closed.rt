//! The closed functions of a program.

ghost use Rattle.std.specs.Prelude.{◌≡◌, IfOk, filter};
ghost use Rattle.sml_tree.specs.Sets.{has};
ghost use Rattle.cps_ir.specs.Program.{code_at};
ghost use Rattle.cps_ir.specs.Slim.{layouts};
ghost use Rattle.cps_free.specs.Same.{AreSame};
ghost use Rattle.close_laws.specs.Layouts.{closed_names, names_of_layouts};
ghost use Rattle.closed_functions.specs.Round.{NamedOnce, IsGreatest};

use crate::rounds::{all_names, contains, one_round};
use cps_ir::Cps;
use cps_survey::Layout;
use smlc_base::NoMemory;
use std::alloc::Global;
use std::collections::BTreeSet;

/// Whether a function is one of these.
pub fn is_closed(closed: &BTreeSet<u32>, name: u32) -> bool
    ensures { result ≡ has closed.now.keys name }
{
    contains(closed, name)
}

// What is left when no function goes out any more.
fn closed_among(alloc: Global, all: &[Layout]) -> Result<BTreeSet<u32>, NoMemory>
    requires { NamedOnce all.now }
    ensures { IfOk result (λ s. IsGreatest all.now s.keys) }
{
    let mut closed = all_names(alloc, all)?;
    let mut fell = true;
    while fell {
        fell = one_round(&mut closed, all);
    }
    Ok(closed)
}

/// The closed functions of a program whose functions are these.
pub fn closed_functions(
    alloc: Global,
    program: &Cps,
    all: &[Layout],
) -> Result<BTreeSet<u32>, NoMemory>
    requires { all.now ≡ layouts (code_at program.now.bodies 0) }
    ensures { IfOk result (λ s. AreSame s.keys (closed_names (layouts (code_at program.now.bodies 0)))) }
{
    let _ = program.bodies();
    closed_among(alloc, all)
}
