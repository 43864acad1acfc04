//! The passes, one behind the other.

ghost use Rattle.std.specs.Prelude.{◌≡◌, IfOk};
ghost use Rattle.elf_static.specs.Layout.{IsLaidOut};
ghost use Rattle.sml_tree.specs.IsBare.{IsBare};
ghost use Rattle.smlc_words.specs.Given.{IsArena};
ghost use Rattle.sml_pipeline.specs.Passes.{IsPlaced, IsPlanText, IsImageOf};

use close_laws::Plan;
use closure_share::close;
use elf_static::Image;
use placed_ir::Placed;
use plan_text::text_of;
use reg_spill::place;
use rv_codegen::emit;
use sml_middle::contracted_program;
use sml_types::Typed;
use smlc_base::NoMemory;
use std::alloc::Global;

/// A program with places, and the plan of its closures with the words that it spills.
#[derive(Drop)]
pub struct PlacedPlan {
    pub placed: Placed,
    pub plan: Plan,
}

/// The program with places that a typed tree becomes, and its plan.
///
/// # Errors
///
/// Want of memory, also where there are no more numbers for bodies or variables.
pub fn placed_plan(alloc: Global, typed: &Typed) -> Result<PlacedPlan, NoMemory>
    requires { IsBare typed.now.bare }
    ensures { IfOk result (λ r. IsPlaced typed.now.tables.names typed.now.bare r.placed r.plan) }
{
    let program = contracted_program(alloc, typed)?;
    let closing = close(alloc, &program)?;
    let placed = place(alloc, &closing.closed)?;
    let plan = Plan {
        spill: placed.spill(),
        ..closing.plan
    };
    Ok(PlacedPlan { placed, plan })
}

/// The image that a typed tree becomes, with an arena of so many words.
///
/// # Errors
///
/// Want of memory, also where the image would pass the addresses that its code can reach.
pub fn image(alloc: Global, typed: &Typed, arena: u64) -> Result<Image, NoMemory>
    requires bare { IsBare typed.now.bare }
    requires arena { IsArena arena }
    ensures image { IfOk result (IsImageOf typed.now.tables.names typed.now.bare arena) }
    ensures laid_out { IfOk result IsLaidOut }
{
    let program = placed_plan(alloc, typed)?;
    emit(alloc, &program.placed, &program.plan, arena)
}

/// The text of a typed tree's plan.
///
/// # Errors
///
/// Want of memory, also where there are no more numbers for bodies or variables.
pub fn plan_lines(alloc: Global, typed: &Typed) -> Result<Vec<u8>, NoMemory>
    requires { IsBare typed.now.bare }
    ensures { IfOk result (λ text. IsPlanText typed.now.tables.names typed.now.bare text.items) }
{
    let program = placed_plan(alloc, typed)?;
    text_of(alloc, &program.plan)
}
