//! What is proved of claims.

ghost use Rattle.cg_claim.specs.Laws.{ApartIsUnseen, ConeIsReached, GatesAreOperations, GoalViolates, HoldIsSaid};
ghost use Rattle.cg_claim.specs.Laws.{HoldLeavesAreSame};
ghost use Rattle.cg_claim.specs.Laws.{IdleGoal, IdleIsNoLarger, IdleIsSaid, NeverIsTried, StableIsSaid, TargetsSuffice};
ghost use Rattle.cg_claim.specs.Laws.{UnseenIsSaid};
ghost use Rattle.cg_claim.specs.form.Laws.{CutNetsAreLeaves, CutSuffices, FormGoalViolates, FormIsSaid, OtherCutNetsAreLeaves};
ghost use Rattle.cg_claim.specs.form.Laws.{StageClaimsAreForms};

/// The laws of claims: at bits of its leaves a goal is 1 exactly where these bits violate the claim, so that it is
/// never 1 exactly where the claim holds over all states and inputs. What a claim reaches is what logic cells lead
/// from, and a target that reaches no register of a stage needs no claim. The claim that a literal can be 0 is no larger
/// than one that a register holds its bit where that literal is 0.
///
/// The call does nothing; callers use what it ensures.
pub fn claim_laws()
    ensures goal { GoalViolates }
    ensures idle_goal { IdleGoal }
    ensures never { NeverIsTried }
    ensures hold { HoldIsSaid }
    ensures stable { StableIsSaid }
    ensures unseen { UnseenIsSaid }
    ensures idle { IdleIsSaid }
    ensures cone { ConeIsReached }
    ensures same_leaves { HoldLeavesAreSame }
    ensures apart { ApartIsUnseen }
    ensures targets { TargetsSuffice }
    ensures gates { GatesAreOperations }
    ensures no_larger { IdleIsNoLarger }
{}

/// The laws of the common form, in which the claims of stages and of hints are one question over any number of cycles. At
/// bits of its leaves the goal of a question without a cut is 1 exactly where these bits violate the claim, so that it is
/// never 1 exactly where the claim holds over all free bits. With a cut a goal that is never 1 shows that the claim holds
/// without it; each copy that reaches a net of the cut has a leaf for it, the last cycle with other bits one of its own. The
/// claims of stages have the leaves, the list, the goal and the violating bits of such questions.
///
/// The call does nothing; callers use what it ensures.
pub fn form_laws()
    ensures goal { FormGoalViolates }
    ensures said { FormIsSaid }
    ensures cut { CutSuffices }
    ensures leaves { CutNetsAreLeaves }
    ensures other_leaves { OtherCutNetsAreLeaves }
    ensures stages { StageClaimsAreForms }
{}
