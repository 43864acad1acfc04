//! What the program of `Lambda` is that a typed bare tree becomes, and that it keeps the tree's run.
//!
//! It stands on `match_laws` for the tests of a match, on `sane_laws` for which values come where, on `lambda_ir`, `prim_meaning`, `sml_sound`, `sml_types`, `sml_def`, `sml_tree`, `simulation` and `smlc_base`. Its main contract: the program of `Lambda` goes in step with the tree's machine, state for state, and so keeps its run.
//!
//! `specs/Make.antt` says what the program is, `specs/Lower.antt` which state of its machine stands for a state of the tree's, `specs/Ready.antt` what typing gives of a state, `specs/Keeps.antt` the laws, and `specs/Size.antt` how large the program is. There is no code here, so that it isn't proved again with that of `lambda_make`.
#![tactic(auto)]

ghost use Rattle.lambda_laws.specs.Keeps.{LambdaKeeps, LambdaGoesInStep, LambdaIsProgram};
ghost use Rattle.lambda_laws.specs.Size.{LambdaIsSmall};

/// The program of `Lambda` that a typed tree becomes keeps the tree's run, and is slim.
pub fn lambda_keeps()
    ensures { LambdaKeeps }
{}

/// It goes in step with the tree's machine: after each number of steps its state stands for the tree's.
pub fn lambda_goes_in_step()
    ensures { LambdaGoesInStep }
{}

/// It is a program: numbered and closed, with each name bound once and what is cited in its place and range.
pub fn lambda_is_program()
    ensures { LambdaIsProgram }
{}

/// It is small: it has as many terms as the tree has nodes, and its rules are at most twice as large as the tree. The size of a rule counts its tests, its names, and the steps of their ways, each of which is gone once where ways begin alike; so code that shares the beginnings of ways is in proportion to the tree, though all ways together may be as long as the square of a pattern's depth.
pub fn lambda_is_small()
    ensures { LambdaIsSmall }
{}
