//! The decision of a claim that is built.

ghost use Rattle.std.specs.Prelude.{◌≡◌, ◌∷◌, [], IfOk};
ghost use Rattle.cg_hint_laws.specs.Trying.{question_of};
ghost use Rattle.cg_hint_laws.specs.declared.outcome.HintClaim.TheVariants.{Hold, Idle};
ghost use Rattle.cg_hints.specs.inner.Deciding.{CertifiesThese, Decides, Grow};
ghost use Rattle.cg_unroll_cycles.specs.Asking.{AsksThere};
ghost use Rattle.cg_unroll_cycles.specs.Claims.{IsCycleClaim};

use crate::claims::Claims;
use crate::judge::Judge;
use crate::standing::Standing;
use cg_hint_laws::certificate::HintCertificate;
use cg_hint_laws::laws::hint_laws;
use cg_hint_laws::outcome::{HintClaim, HintOutcome};
use cg_judge::verdict::Verdict;
use cg_net::id::RegId;
use std::alloc::AllocError;

impl Judge {
    /// Decides a claim that was built last, and puts its certificate behind `into` where it holds and proofs are wanted.
    pub(crate) fn decide(
        &mut self,
        claims: &Claims<'_>,
        claim: HintClaim,
        into: &mut Vec<HintCertificate>,
    ) -> Result<Standing, AllocError>
        requires there { AsksThere claims.now.machine.now (question_of claims.now.hint.now claim) }
        requires built { IsCycleClaim claims.now.machine.now (question_of claims.now.hint.now claim) claims.now.width self.old.unroller }
        ensures decides { IfOk result (Decides claims.now.machine.now claims.now.hint.now claim) }
        ensures certified { IfOk result
            (CertifiesThese claims.now.proof claims.now.number claims.now.machine.now claims.now.hint.now (claim ∷ []) into.old.items into.new.items) }
        ensures grown { Grow into.old.items into.new.items }
    {
        match claim {
            HintClaim::Idle => self.decide_idle(claims),
            HintClaim::Hold(reg) => self.decide_register(claims, reg, into),
        }
    }

    /// Decides the claim that the condition can be 0, which was built last.
    fn decide_idle(&mut self, claims: &Claims<'_>) -> Result<Standing, AllocError>
        requires there { AsksThere claims.now.machine.now (question_of claims.now.hint.now Idle) }
        requires built { IsCycleClaim claims.now.machine.now (question_of claims.now.hint.now Idle) claims.now.width self.old.unroller }
        ensures { IfOk result (Decides claims.now.machine.now claims.now.hint.now Idle) }
    {
        hint_laws();
        let _netlist = claims.machine.netlist();
        let idles = self
            .decider
            .is_ever_one(self.unroller.aig(), self.unroller.goal())?;
        if idles {
            return Ok(Standing::Open);
        }
        Ok(Standing::Settled(HintOutcome::NeverIdle))
    }

    /// Decides the claim of a register, which was built last.
    fn decide_register(
        &mut self,
        claims: &Claims<'_>,
        reg: RegId,
        into: &mut Vec<HintCertificate>,
    ) -> Result<Standing, AllocError>
        requires there { AsksThere claims.now.machine.now (question_of claims.now.hint.now (Hold reg)) }
        requires built { IsCycleClaim claims.now.machine.now (question_of claims.now.hint.now (Hold reg)) claims.now.width self.old.unroller }
        ensures decides { IfOk result (Decides claims.now.machine.now claims.now.hint.now (Hold reg)) }
        ensures certified { IfOk result
            (CertifiesThese claims.now.proof claims.now.number claims.now.machine.now claims.now.hint.now (Hold reg ∷ []) into.old.items into.new.items) }
        ensures grown { Grow into.old.items into.new.items }
    {
        hint_laws();
        let _netlist = claims.machine.netlist();
        match self.decider.decide(
            self.unroller.aig(),
            self.unroller.goal(),
            self.unroller.leaves(),
            claims.proof,
        )? {
            Verdict::Never(None) => Ok(Standing::Open),
            Verdict::Never(Some(proof)) => {
                into.push(HintCertificate {
                    number: claims.number,
                    reg,
                    formula: proof.formula,
                    log: proof.log,
                })?;
                Ok(Standing::Open)
            }
            Verdict::Sometimes(bits) => Ok(Standing::Settled(HintOutcome::Refuted(
                HintClaim::Hold(reg),
                bits,
            ))),
        }
    }
}
