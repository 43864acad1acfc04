//! The meaning of Core Standard ML programs: the source machine, a machine with an environment, a store and frames over the bare tree.
//!
//! It stands on `sml_tree` for the tree, on `prim_meaning` for what primitives come to, on `simulation` for what a run shows, and on `smlc_base`. Its main contract: `points` answers all points of a program in ascending order, each with its words and the frame around it.
#![tactic(auto)]

ghost use Rattle.sml_def.specs.Apart.{ValuesNameNoFrames};
ghost use Rattle.sml_def.specs.Census.{CensusCounts, CensusIsOfReach, WordsAreCounted};
ghost use Rattle.sml_def.specs.Closed.{NamesNothingLost};
ghost use Rattle.sml_def.specs.Cut.{EnvironmentsAreCut};
ghost use Rattle.sml_def.specs.Factor.{MadePays, PlansGiveFactors, ReachPays};
ghost use Rattle.sml_def.specs.Frames.{FramesAreOneChain, FramesAreOneLine, FramesNest, SitesArePaid};
ghost use Rattle.sml_def.specs.Laws.{RunsOnlyGrow, PointsAscend, PointsStandOnce, PassesAreSites, BlocksHaveSites, MadeOnlyGrows, SourceIsTidy};
ghost use Rattle.sml_def.specs.Words.{ReachIsLeast, WordsAreReached};

pub mod sites;

pub use sites::points;

/// A run takes back no output and no block.
pub fn runs_only_grow()
    ensures { RunsOnlyGrow }
{}

/// In each state of a run each address that is named has a block.
pub fn names_nothing_lost()
    ensures { NamesNothingLost }
{}

/// In each state of a run each environment has the free variables of what it is for, and no others.
pub fn environments_are_cut()
    ensures { EnvironmentsAreCut }
{}

/// In each state of a run what is computed as reached is the least set that has the roots and is closed under fields, and it has the words that are computed.
pub fn reach_is_least()
    ensures least { ReachIsLeast }
    ensures words { WordsAreReached }
{}

/// The points of a program stand in ascending order: by node, then by kind.
pub fn points_ascend()
    ensures { PointsAscend }
{}

/// Each point of a program stands there once.
pub fn points_stand_once()
    ensures { PointsStandOnce }
{}

/// The records of a run are in order: the source has no class records and no spill records.
pub fn source_is_tidy()
    ensures { SourceIsTidy }
{}

/// Each point that a run passes is that of one of the program's sites.
pub fn passes_are_sites()
    ensures { PassesAreSites }
{}

/// In each state of a run each closure and frame has the words of its site.
pub fn blocks_have_sites()
    ensures { BlocksHaveSites }
{}

/// In each state of a run the census counts each closure and frame that is reached once at its point, and the words of all else.
pub fn census_counts()
    ensures { CensusCounts }
{}

/// In each state of a run the words are those of its census: for each site so many blocks of so many words, and the data.
pub fn words_are_counted()
    ensures { WordsAreCounted }
{}

/// States that reach the same have the same words and the same census.
pub fn census_is_of_reach()
    ensures { CensusIsOfReach }
{}

/// What a run has made is never less afterwards, whichever labels are left.
pub fn made_only_grows()
    ensures { MadeOnlyGrows }
{}

/// In each state of a run values name no frame, and what awaits is a frame.
pub fn values_name_no_frames()
    ensures { ValuesNameNoFrames }
{}

/// In each state of a run each frame of a site that has a frame around it names a frame of that one.
pub fn frames_nest()
    ensures { FramesNest }
{}

/// In each state of a run the frames that are reached are one chain, from the one that the control names to ever older ones.
pub fn frames_are_one_chain()
    ensures chain { FramesAreOneChain }
    ensures line { FramesAreOneLine }
{}

/// In each state of a run the site words of what is reached are no more than its words, whichever labels are left.
pub fn sites_are_paid()
    ensures { SitesArePaid }
{}

/// The factor of a plan, label by label, is one by which sites pay for what is charged to their points.
pub fn plans_give_factors()
    ensures { PlansGiveFactors }
{}

/// What a run reaches pays for all that is charged to its points, so many times over as the factor says.
pub fn reach_pays()
    ensures { ReachPays }
{}

/// And so does what it has made, for all of it.
pub fn made_pays()
    ensures { MadePays }
{}
