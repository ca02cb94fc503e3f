//! What is proved of hints.

ghost use Rattle.cg_hint_laws.specs.Laws.{ChainTells, ClaimsAreForms, GoalViolates, HintIsSafe, HintsAreSafe, HoldIsAlong, HoldIsSaid, IdleIsSaid, InsertedExactly, NeverIsTried};
ghost use Rattle.cg_hint_laws.specs.Laws.{RegistersGetChain, WorthyExactly};

/// The laws of hints: where its registers hold, a hint may be inserted, and from every start with 1 in the delay registers and
/// over every waveform the machine shows what it showed before. At bits of its leaves the goal of a claim is 1 exactly where these
/// bits violate the claim, so that it is never 1 exactly where the claim holds over all states and inputs. So a hint is inserted
/// exactly where it deserves it, and hints that are tried one after another change nothing that is shown, and are each inserted
/// exactly where they are worth it unless a limit is passed. The claims are questions of the common form of claims.
///
/// The call does nothing; callers use what it ensures.
pub fn hint_laws()
    ensures safe { HintIsSafe }
    ensures chain { ChainTells }
    ensures given { RegistersGetChain }
    ensures along { HoldIsAlong }
    ensures goal { GoalViolates }
    ensures never { NeverIsTried }
    ensures hold { HoldIsSaid }
    ensures idle { IdleIsSaid }
    ensures exactly { InsertedExactly }
    ensures all_safe { HintsAreSafe }
    ensures worthy { WorthyExactly }
    ensures forms { ClaimsAreForms }
{}
