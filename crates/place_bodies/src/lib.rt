//! What placing makes of a body by number, and that it is what placing makes of the body's tree.
//!
//! It stands on `closed_live` for what lives along a body, on `place_laws` for the rule of places, and on what these stand on. It has no code. Its main contract: places depend on the living variables as a set (`places_see_sets`), and only the places of living variables matter (`living_places_matter`).
//!
//! `specs/Steps.antt` says what a body becomes with a table from variables to places; `proofs/Binds.antt` and `proofs/Ends.antt` that this is the rule of places.
#![tactic(auto)]

ghost use Rattle.std.specs.Prelude.{◌≡◌, ℕ, List};
ghost use Rattle.simulation.specs.Blocks.{IsAmong};
ghost use Rattle.closure_ir.specs.Code.{Code};
ghost use Rattle.place_laws.specs.Live.{live};
ghost use Rattle.place_laws.specs.Place.{Places, least_free, place_code};
ghost use Rattle.closed_live.specs.Same.{AreSame};

/// The least free place depends on which places are taken alone, and not on their order.
pub fn places_see_sets()
    ensures { (xs ys : List ℕ) → AreSame xs ys → least_free xs ≡ least_free ys }
{}

/// A body is placed alike from places that agree on the variables that live before it.
pub fn living_places_matter()
    ensures { (at there : Places) (c : Code) → ((x : ℕ) → IsAmong x (live c) → at x ≡ there x) → place_code at c ≡ place_code there c }
{}
