//! Laws of typings.

ghost use Rattle.sml_types.specs.Few.{TablesAreFew};

/// In the tables of a typing of a bare tree the constructors of each type name have numbers below 2^20.
pub fn tables_are_few()
    ensures { TablesAreFew }
{}
