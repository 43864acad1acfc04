//! Laws of the definitions.

ghost use Rattle.print_code.specs.Laws.{OneMeaning};

/// A bare tree says at most one text, stops at one place at most, and not both.
pub fn trees_mean_one_thing()
    ensures { OneMeaning }
{}
