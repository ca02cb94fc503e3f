//! What is proved of stages.

ghost use Rattle.cg_stage_laws.specs.Laws.{HoldIsSafe, StableIsSafe, UnseenIsSafe};

/// The laws of stages: where its claims hold, a stage of each kind may be inserted, and from every start with 1 in the delay
/// registers and over every waveform the machine shows what it showed before.
///
/// The call does nothing; callers use what it ensures.
pub fn stage_laws()
    ensures hold { HoldIsSafe }
    ensures stable { StableIsSafe }
    ensures unseen { UnseenIsSafe }
{}
