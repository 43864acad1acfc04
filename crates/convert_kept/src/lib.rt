//! What the program of `Cps` keeps that one of `Lambda` becomes. No code.
//!
//! It stands on `convert_laws`, `cps_ir` and `lambda_ir`, and on what these stand on. Its main contract: `conversion_is_closed`: whichever frames have functions of their own, no variable is free in what conversion makes. `conversion_keeps_ranges` says that it cites no constant, text or name that isn't there.
#![tactic(auto)]

ghost use Rattle.convert_kept.specs.Law.{ConversionIsClosed, ConversionKeepsRanges};
ghost use Rattle.convert_kept.specs.Ranges.{KeptByBodies};

/// No variable is free in what conversion makes.
pub fn conversion_is_closed()
    ensures { ConversionIsClosed }
{}

/// Constants stay in their ranges, and texts and names stand there.
pub fn conversion_keeps_ranges()
    ensures { ConversionKeepsRanges }
{}

/// A body whose tree cites only what is there does so itself.
pub fn kept_by_bodies()
    ensures { KeptByBodies }
{}
