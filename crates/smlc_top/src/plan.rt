//! The text of the plan of a program.

ghost use Rattle.std.specs.Prelude.{◌+◌, ◌<◌, ◌^◌, length, map};
ghost use Rattle.sml_tree.specs.IsBare.{IsBare};
ghost use Rattle.smlc_top.specs.Plan.{IsPlanned, IsPlanOf};

use crate::front::typed_of;
use crate::types::{Shown, refuse};
use sml_pipeline::plan_lines;
use sml_types::Typed;
use smlc_base::CompileError;
use std::alloc::Global;

/// The plan of the files of these names.
pub fn plan_of(alloc: Global, names: &[&str], files: &[Vec<u8>]) -> Shown
    requires { length files.now + 1 < 2 ^ 32 }
    ensures { IsPlanned (map (λ name. name.now) names.now) (map (λ f. f.items) files.now) result }
{
    match typed_of(alloc, files) {
        Ok(typed) => tell(alloc, &typed),
        Err(CompileError::Refused(refusal)) => refuse(alloc, names, refusal),
        Err(CompileError::NoMemory) => Shown::NoMemory,
    }
}

fn tell(alloc: Global, typed: &Typed) -> Shown
    requires { IsBare typed.now.bare }
    ensures { IsPlanOf typed.now result }
{
    match plan_lines(alloc, typed) {
        Ok(text) => Shown::Text(text),
        Err(_) => Shown::NoMemory,
    }
}
