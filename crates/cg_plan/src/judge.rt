//! What tries stages one after another, and decides a claim that is built.

ghost use Rattle.std.specs.Prelude.{◌≡◌, ℕ, IfOk, IfErr, OnErr, OnOk, true};
ghost use Rattle.cg_claim.specs.Question.{Question, idle_question};
ghost use Rattle.cg_claim.specs.Violates.{SidesFit};
ghost use Rattle.cg_machine.specs.Machine.{IsMachine, MachineData};
ghost use Rattle.cg_plan_laws.specs.Cleared.{IsCleared};
ghost use Rattle.cg_plan_laws.specs.Plan.{after_outcome};
ghost use Rattle.cg_plan_laws.specs.StageClaims.{claims_of};
ghost use Rattle.cg_plan_laws.specs.Reported.{MayFail, TellsOutcome};
ghost use Rattle.cg_plan_laws.specs.Trying.{decided, measured, tried};
ghost use Rattle.cg_stage_laws.specs.Appends.{Keeps};
ghost use Rattle.cg_plan.specs.Trial.{IsRefused, IsTried};
ghost use Rattle.cg_plan.specs.inner.Deciding.{Grow, IsIdleDecided, Settles, IsDecided};
ghost use Rattle.cg_plan.specs.inner.Judging.{Certifying, IsJudged, Pushes, by_claims};
ghost use Rattle.cg_plan.specs.inner.Naming.{AreNames};
ghost use Rattle.cg_claim_reach.specs.Fanout.{Knows};
ghost use Rattle.cg_stage_laws.specs.Stages.{Fits};
ghost use Rattle.cg_unroll.specs.Claims.{IsClaim};
ghost use Rattle.cg_judge.specs.Verdict.{IsGoal};

use crate::cells::early_end;
use crate::claims::{StageSets, claim_names, measure};
use crate::insert::insert;
use cg_cell::library::Library;
use cg_claim::laws::claim_laws;
use cg_claim::name::ClaimName;
use cg_claim_reach::fanout::Fanout;
use cg_judge::decider::ClaimDecider;
use cg_judge::trying::keep_where;
use cg_judge::verdict::Verdict;
use cg_machine::machine::Machine;
use cg_machine::stage::Stage;
use cg_netlist::fault::AddFault;
use cg_plan_laws::certificate::Certificate;
use cg_plan_laws::laws::plan_laws;
use cg_plan_laws::outcome::Outcome;
use cg_plan_laws::settings::Settings;
use cg_unroll::unroller::Unroller;
use std::alloc::{AllocError, Global};

/// What stages are tried by: the cells that may be placed, and what bounds the plan.
#[derive(Clone, Copy)]
pub(crate) struct Rules<'a> {
    pub library: &'a Library,
    pub settings: &'a Settings,
}

/// A stage with its number in the plan.
#[derive(Clone, Copy)]
pub(crate) struct Entry<'a> {
    pub number: u32,
    pub stage: &'a Stage,

    /// Whether the stage is known to come through its claims. They are then decided only for their proofs.
    pub cleared: bool,
}

/// The claims of a stage on a machine, beside that it can idle, by their names; none may be wider than the width.
#[derive(Clone, Copy)]
struct Claims<'a> {
    machine: &'a Machine,
    number: u32,
    stage: &'a StageSets<'a>,
    names: &'a [ClaimName],
    width: u32,
    proof: bool,
}

/// What tries stages, in buffers that are kept, so that a claim costs what it reaches.
#[derive(Drop)]
pub(crate) struct Judge {
    alloc: Global,
    unroller: Unroller,
    decider: ClaimDecider,
}

impl Judge {
    /// With empty buffers; takes no memory.
    pub fn new(alloc: Global) -> Judge {
        Judge {
            alloc,
            unroller: Unroller::new(alloc),
            decider: ClaimDecider::new(alloc),
        }
    }

    /// Tries a stage, as [`try_stage`](crate::trial::try_stage) says.
    pub fn try_stage(
        &mut self,
        machine: &mut Machine,
        fanout: &mut Fanout,
        entry: &Entry<'_>,
        rules: &Rules<'_>,
        into: &mut Vec<Certificate>,
    ) -> Result<Outcome, AddFault>
        requires fits { Fits machine.old entry.now.stage.now }
        requires cleared { entry.now.cleared ≡ true → IsCleared machine.old rules.now.settings.now.width entry.now.stage.now }
        requires knows { Knows machine.old fanout.old }
        ensures tried { IfOk result (λ outcome. IsTried rules.now.library.now rules.now.settings.now entry.now.number machine.old entry.now.stage.now
            into.old.items outcome machine.new into.new.items) }
        ensures refused { IfErr result (λ fault. IsRefused rules.now.library.now rules.now.settings.now machine.old entry.now.stage.now
            into.old.items fault machine.new into.new.items) }
        ensures knows { OnOk result (Knows machine.new fanout.new) }
        ensures whole { IsMachine machine.new }
    {
        plan_laws();
        let _before = machine.netlist();
        let count = into.len();
        let result = self.try_pushing(machine, fanout, entry, rules, into);
        let _after = machine.netlist();
        match result {
            Ok(outcome) => {
                keep_where(outcome.is_inserted(), count, into);
                Ok(outcome)
            }
            Err(fault) => {
                into.truncate(count);
                Err(fault)
            }
        }
    }

    /// Tries a stage, and puts certificates behind `into` also where it is not inserted.
    fn try_pushing(
        &mut self,
        machine: &mut Machine,
        fanout: &mut Fanout,
        entry: &Entry<'_>,
        rules: &Rules<'_>,
        into: &mut Vec<Certificate>,
    ) -> Result<Outcome, AddFault>
        requires fits { Fits machine.old entry.now.stage.now }
        requires cleared { entry.now.cleared ≡ true → IsCleared machine.old rules.now.settings.now.width entry.now.stage.now }
        requires knows { Knows machine.old fanout.old }
        ensures outcome { IfOk result (λ outcome. TellsOutcome machine.old entry.now.stage.now
            (tried rules.now.library.now rules.now.settings.now machine.old entry.now.stage.now) outcome) }
        ensures machine { IfOk result (λ outcome. machine.new ≡ after_outcome machine.old entry.now.stage.now outcome) }
        ensures certificates { IfOk result (Pushes rules.now.settings.now.proof machine.old entry.now.number entry.now.stage.now into.old.items into.new.items) }
        ensures knows { OnOk result (Knows machine.new fanout.new) }
        ensures fault { IfErr result (MayFail (tried rules.now.library.now rules.now.settings.now machine.old entry.now.stage.now)) }
        ensures kept { OnErr result (Keeps machine.old machine.new) }
        ensures grown { Grow into.old.items into.new.items }
    {
        match early_end(entry.stage, rules.library, rules.settings) {
            Some(outcome) => Ok(outcome),
            None => self.try_claims(machine, fanout, entry, rules.settings, into),
        }
    }

    /// Tries a stage that is large enough, and of which the library has the cells.
    fn try_claims(
        &mut self,
        machine: &mut Machine,
        fanout: &mut Fanout,
        entry: &Entry<'_>,
        settings: &Settings,
        into: &mut Vec<Certificate>,
    ) -> Result<Outcome, AddFault>
        requires fits { Fits machine.old entry.now.stage.now }
        requires cleared { entry.now.cleared ≡ true → IsCleared machine.old settings.now.width entry.now.stage.now }
        requires knows { Knows machine.old fanout.old }
        ensures outcome { IfOk result (λ outcome. TellsOutcome machine.old entry.now.stage.now
            (by_claims machine.old settings.now.width entry.now.stage.now) outcome) }
        ensures machine { IfOk result (λ outcome. machine.new ≡ after_outcome machine.old entry.now.stage.now outcome) }
        ensures certificates { IfOk result (Pushes settings.now.proof machine.old entry.now.number entry.now.stage.now into.old.items into.new.items) }
        ensures knows { OnOk result (Knows machine.new fanout.new) }
        ensures fault { IfErr result (MayFail (by_claims machine.old settings.now.width entry.now.stage.now)) }
        ensures kept { OnErr result (Keeps machine.old machine.new) }
        ensures grown { Grow into.old.items into.new.items }
    {
        let _netlist = machine.netlist();
        if let Some(end) = self.judge_claims(machine, fanout, entry, settings, into)? {
            return Ok(end);
        }
        insert(machine, fanout, entry.stage)?;
        Ok(Outcome::Inserted)
    }

    /// How a stage ends by its claims; where it does not, their certificates are put behind `into`. Of a stage that is known to
    /// come through them no claim is built where no proofs are wanted.
    fn judge_claims(
        &mut self,
        machine: &Machine,
        fanout: &mut Fanout,
        entry: &Entry<'_>,
        settings: &Settings,
        into: &mut Vec<Certificate>,
    ) -> Result<Option<Outcome>, AddFault>
        requires fits { Fits machine.now entry.now.stage.now }
        requires cleared { entry.now.cleared ≡ true → IsCleared machine.now settings.now.width entry.now.stage.now }
        requires knows { Knows machine.now fanout.old }
        ensures judged { IfOk result
            (IsJudged machine.now entry.now.stage.now (by_claims machine.now settings.now.width entry.now.stage.now)) }
        ensures certificates { IfOk result (Certifying settings.now.proof machine.now entry.now.number entry.now.stage.now into.old.items into.new.items) }
        ensures knows { OnOk result (Knows machine.now fanout.new) }
        ensures fault { IfErr result (MayFail (by_claims machine.now settings.now.width entry.now.stage.now)) }
        ensures grown { Grow into.old.items into.new.items }
    {
        if entry.cleared && !settings.proof {
            return Ok(None);
        }
        let names = claim_names(self.alloc, machine, fanout, entry.stage)?;
        let sets = StageSets::new(self.alloc, entry.stage)?;
        let claims = Claims {
            machine,
            number: entry.number,
            stage: &sets,
            names: names.as_slice(),
            width: settings.width,
            proof: settings.proof,
        };
        self.judge_named(&claims, into)
    }

    /// How a stage ends by its claims, which have these names beside that it can idle. Each is built once.
    fn judge_named(
        &mut self,
        claims: &Claims<'_>,
        into: &mut Vec<Certificate>,
    ) -> Result<Option<Outcome>, AddFault>
        requires fits { Fits claims.now.machine.now claims.now.stage.now }
        requires names { AreNames claims.now.machine.now claims.now.stage.now claims.now.names.now }
        ensures judged { IfOk result
            (IsJudged claims.now.machine.now claims.now.stage.now (by_claims claims.now.machine.now claims.now.width claims.now.stage.now)) }
        ensures certificates { IfOk result (Certifying claims.now.proof claims.now.machine.now claims.now.number claims.now.stage.now into.old.items into.new.items) }
        ensures fault { IfErr result (MayFail (by_claims claims.now.machine.now claims.now.width claims.now.stage.now)) }
        ensures grown { Grow into.old.items into.new.items }
    {
        let _netlist = claims.machine.netlist();
        if let Some(end) = measure(
            &mut self.unroller,
            claims.machine,
            claims.stage,
            &ClaimName::Idle,
            claims.width,
        )? {
            return Ok(Some(end));
        }
        let settled = self.decide_idle()?;
        self.judge_each(claims, settled, into)
    }

    /// How a stage ends by its claims of these names, of which that it can idle has settled this. Once more is settled, the
    /// claims left are measured alone: one of them may yet be too wide.
    fn judge_each(
        &mut self,
        claims: &Claims<'_>,
        settled: Option<Outcome>,
        into: &mut Vec<Certificate>,
    ) -> Result<Option<Outcome>, AddFault>
        requires fits { Fits claims.now.machine.now claims.now.stage.now }
        requires names { AreNames claims.now.machine.now claims.now.stage.now claims.now.names.now }
        requires settled { IsIdleDecided claims.now.machine.now (idle_question claims.now.stage.now.enable) settled }
        ensures judged { IfOk result
            (IsJudged claims.now.machine.now claims.now.stage.now
            (measured claims.now.machine.now claims.now.width (claims_of claims.now.machine.now claims.now.stage.now)
            (decided claims.now.machine.now claims.now.stage.now))) }
        ensures certificates { IfOk result (Certifying claims.now.proof claims.now.machine.now claims.now.number claims.now.stage.now into.old.items into.new.items) }
        ensures fault { IfErr result
            (MayFail (measured claims.now.machine.now claims.now.width (claims_of claims.now.machine.now claims.now.stage.now)
            (decided claims.now.machine.now claims.now.stage.now))) }
        ensures grown { Grow into.old.items into.new.items }
    {
        let _netlist = claims.machine.netlist();
        let mut settled = settled;
        for name in claims.names {
            if let Some(end) = measure(
                &mut self.unroller,
                claims.machine,
                claims.stage,
                name,
                claims.width,
            )? {
                return Ok(Some(end));
            }
            settled = self.settle(claims.number, name, claims.proof, settled, into)?;
        }
        Ok(settled)
    }

    /// What is settled once the claim of this name, which was built last, has its turn: it is decided where nothing was settled
    /// before.
    fn settle(
        &mut self,
        number: u32,
        name: &ClaimName,
        proof: bool,
        settled: Option<Outcome>,
        into: &mut Vec<Certificate>,
    ) -> Result<Option<Outcome>, AllocError>
        requires { IsGoal self.old.unroller.aig self.old.unroller.goal self.old.unroller.leaves }
        ensures settles { IfOk result (λ now. (m : MachineData) (q : Question) (width : ℕ) → IsMachine m → SidesFit m q.sides
            → IsClaim m q width self.old.unroller → Settles proof m number (name.now, q) into.old.items into.new.items settled now) }
        ensures grown { Grow into.old.items into.new.items }
    {
        match settled {
            Some(outcome) => Ok(Some(outcome)),
            None => self.decide(number, name, proof, into),
        }
    }

    /// Decides the claim that was built last, as the claim that the stage can idle. Where it holds, the answer is that the
    /// stage is never idle.
    fn decide_idle(&mut self) -> Result<Option<Outcome>, AllocError>
        requires { IsGoal self.old.unroller.aig self.old.unroller.goal self.old.unroller.leaves }
        ensures { IfOk result (λ end. (m : MachineData) (q : Question) (width : ℕ) → IsMachine m → SidesFit m q.sides
            → IsClaim m q width self.old.unroller → IsIdleDecided m q end) }
    {
        claim_laws();
        let idles = self
            .decider
            .is_ever_one(self.unroller.aig(), self.unroller.goal())?;
        if idles {
            return Ok(None);
        }
        Ok(Some(Outcome::NeverIdle))
    }

    /// Decides the claim that was built last, as the claim of this name. Where it holds and proofs are wanted, its certificate is
    /// put behind `into`; where it does not hold, the answer is that the stage is refuted by it.
    fn decide(
        &mut self,
        number: u32,
        name: &ClaimName,
        proof: bool,
        into: &mut Vec<Certificate>,
    ) -> Result<Option<Outcome>, AllocError>
        requires { IsGoal self.old.unroller.aig self.old.unroller.goal self.old.unroller.leaves }
        ensures decided { IfOk result (λ end. (m : MachineData) (q : Question) (width : ℕ) → IsMachine m → SidesFit m q.sides
            → IsClaim m q width self.old.unroller → IsDecided proof m number (name.now, q) into.old.items into.new.items end) }
        ensures grown { Grow into.old.items into.new.items }
    {
        claim_laws();
        match self.decider.decide(
            self.unroller.aig(),
            self.unroller.goal(),
            self.unroller.leaves(),
            proof,
        )? {
            Verdict::Never(None) => Ok(None),
            Verdict::Never(Some(proof)) => {
                into.push(Certificate {
                    stage: number,
                    claim: *name,
                    formula: proof.formula,
                    log: proof.log,
                })?;
                Ok(None)
            }
            Verdict::Sometimes(bits) => Ok(Some(Outcome::Refuted(*name, bits))),
        }
    }
}
