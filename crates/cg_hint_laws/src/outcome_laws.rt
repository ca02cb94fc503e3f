//! What is proved of the outcomes of hints.

ghost use Rattle.cg_hint_laws.specs.Outcomes.{OutcomesAreDeserved, TurnsAreDeserved};

/// An outcome comes of a hint exactly where what it says is so of the hint, over all states and inputs where it speaks of a claim or of
/// the condition; and each of hints that are tried one after another deserves what comes of it, on the machine of its turn.
///
/// The call does nothing; callers use what it ensures.
pub fn outcome_laws()
    ensures outcomes { OutcomesAreDeserved }
    ensures turns { TurnsAreDeserved }
{}
