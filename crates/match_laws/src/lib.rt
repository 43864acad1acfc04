//! What the tests of a match are, and that they choose the first rule that fits.
//!
//! It stands on `lambda_ir` for the machine's tests, on `prim_meaning`, on `sml_sound` for the values of a type, on `sml_types`, `sml_def`, `sml_tree`, `simulation` and `smlc_base`. Its main contract: the tests of a match choose the first rule whose pattern fits, for each value of the match's type.
//!
//! `specs/Compile.antt` says what the tests and names of a pattern are, `specs/Shape.antt` and `specs/Suit.antt` what is asked of a value, and `specs/Law.antt` the laws. There is no code here, so that it isn't proved again with that of `match_compile`.
#![tactic(auto)]

ghost use Rattle.match_laws.specs.Law.{TestsFit, TestsChoose, TestsAreMet, TestsChooseByType, TestsAreMetByType};

/// The tests of a pattern hold where it fits, and its names read what it binds, for values that have the pattern's shape; so the tests of a match choose the first rule that fits.
pub fn tests_choose()
    ensures fit { TestsFit }
    ensures choose { TestsChoose }
{}

/// For values that suit the patterns each test that comes up looks at a value of its kind, along a way that leads somewhere.
pub fn tests_are_met()
    ensures { TestsAreMet }
{}

/// The tests of a match choose the first rule that fits, for each value of the match's type.
pub fn tests_choose_by_type()
    ensures { TestsChooseByType }
{}

/// And they look at values of their kind, where the exceptions that patterns name stand for exception names.
pub fn tests_are_met_by_type()
    ensures { TestsAreMetByType }
{}
