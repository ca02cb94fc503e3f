//! What is proved of what a claim reaches.

ghost use Rattle.cg_reach_laws.specs.Laws.{LeavesAreLedTo, PathsReach};

/// The laws of what a claim reaches: in each copy of the machine a net, or the bit of a register, is reached exactly where a path
/// leads to it from the goal, of parts of which each asks for the next; and a leaf is a data input or a register that is reached so
/// and is taken as given.
///
/// The call does nothing; callers use what it ensures.
pub fn reach_laws()
    ensures paths { PathsReach }
    ensures leaves { LeavesAreLedTo }
{}
