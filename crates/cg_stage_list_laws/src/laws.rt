//! What is proved of lists of stages.

ghost use Rattle.cg_stage_list_laws.specs.Laws.{HoldListFits, HoldWidthsAreOne, StableListFits, UnseenListFits};
ghost use Rattle.cg_stage_list_laws.specs.Ranked.{LiteralsAreRanked};

/// The laws of the lists: their stages fit the machine that they are made on, and no two of a list share a register.
/// All hold claims of one register have one width. Its literals are looked at by how often they are 0, the most often first,
/// and those that are 0 as often in net order, plain before inverted, each once.
///
/// The call does nothing; callers use what it ensures.
pub fn list_laws()
    ensures hold { HoldListFits }
    ensures stable { StableListFits }
    ensures unseen { UnseenListFits }
    ensures widths { HoldWidthsAreOne }
    ensures ranked { LiteralsAreRanked }
{}
