//! The points of the program of `Cps` that a tree becomes, and its sites. No code.
//!
//! It stands on `lambda_ends`, `convert_kept`, `convert_laws`, `lambda_laws`, `contract_round` and `cps_ir`, and on what these stand on. Its main contract: `converted_is_whole`: no variable of that program is free and none is bound twice, each of its points but that of comparisons stands once, and no function stands for that one, which is what contraction asks.
//!
//! A text that goes on is used once where the decision fits, so that no point that a continuation makes is made twice. A term then makes a point no more often than its parts do, and once more where the point is its own. Any count of points that allows each term that much allows the whole program what it allows term 0, and the points of the tree's nodes are such a count.
#![tactic(auto)]

ghost use Rattle.convert_points.specs.Law.{ConversionIsPaid, ConvertedPointsStandOnce, ConvertedIsWhole, SitesOfATreeFit};

/// Where the decision fits, conversion makes a point no more often than is paid for it.
pub fn conversion_is_paid()
    ensures { ConversionIsPaid }
{}

/// Each point of what a tree becomes but that of comparisons stands once, no function stands for that one, and each function's point has a site.
pub fn converted_points_stand_once()
    ensures { ConvertedPointsStandOnce }
{}

/// What a tree becomes is whole.
pub fn converted_is_whole()
    ensures { ConvertedIsWhole }
{}

/// The sites of a tree fit.
pub fn sites_of_a_tree_fit()
    ensures { SitesOfATreeFit }
{}
