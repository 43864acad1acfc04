//! What each body of a `Cps` program sees at its beginning, in a table by number, while its bodies are closed one after another. No code.
//!
//! It stands on `close_bodies`, `close_entries` and `close_rows`, and on what these stand on. Its main contract: `tables_are_lowered`: where each body stands in one place, the bodies that are closed by the table as it is then are closed by the table as it is at the end, which is what `close_rows` asks.
#![tactic(auto)]

ghost use Rattle.close_seen.specs.Seen.{TablesAreLowered, TablesAreSeen};

/// Bodies that are closed one after another by a table are closed by what each sees in it at the end.
pub fn tables_are_lowered()
    ensures { TablesAreLowered }
{}

/// There what is run first sees nothing, and the body of a function what it is entered with.
pub fn tables_are_seen()
    ensures { TablesAreSeen }
{}
