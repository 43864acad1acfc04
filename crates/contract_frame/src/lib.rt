//! What a round of contraction doesn't look at: what is known of variables that a body neither uses nor binds. No code.
//!
//! It stands on `contract_round`, `contract_laws` and `cps_ir`, and on what these stand on. Its main contract: `unused_is_no_matter`.
//!
//! A table that has one entry for each variable of a program can so stand for the scopes of all bodies that are still to be walked: what is entered for variables that are bound in one of them is no matter in the others.
#![tactic(auto)]

ghost use Rattle.contract_frame.specs.Apart.{UnusedIsNoMatter};

/// Two scopes that have the same for all variables but some, and in which nothing mentions those, make the same of a body that neither uses nor binds them.
pub fn unused_is_no_matter()
    ensures { UnusedIsNoMatter }
{}
