//! What closing decides of the functions of a `Cps` program, in tables by variable.
//!
//! It stands on `closure_layouts`, `cps_survey` and `variable_users`, on `close_steps` for the tables, and on what these stand on. Its main contract: `decisions` answers the tables of a program (`AreTables`), and these have what the definition's design decides (`tables_have`).
#![tactic(auto)]

ghost use Rattle.close_decisions.specs.Tables.{ProgramsHave, TablesHave};

pub mod tables;
pub mod whole;

pub use tables::{functions, numbers};
pub use whole::decisions;

/// The tables of a program have what the definition's design decides.
pub fn tables_have()
    ensures { TablesHave }
{}

/// Those of a program have what its own design decides.
pub fn programs_have()
    ensures { ProgramsHave }
{}
