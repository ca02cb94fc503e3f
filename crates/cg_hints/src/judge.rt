//! What tries hints one after another.

ghost use Rattle.std.specs.Prelude.{◌≡◌, ◌∷◌, List, None, IfErr, IfOk, OnErr};
ghost use Rattle.cg_hint_laws.specs.Answers.{IsAnswer, MayFail};
ghost use Rattle.cg_hint_laws.specs.Hints.{Fits};
ghost use Rattle.cg_hint_laws.specs.Trying.{after_outcome, all_claims, question_of, tried};
ghost use Rattle.cg_hint_laws.specs.declared.outcome.HintClaim.{HintClaim};
ghost use Rattle.cg_hints.specs.Trial.{IsApplied, IsRefused};
ghost use Rattle.cg_hints.specs.inner.Deciding.{CertifiesOn, Grow};
ghost use Rattle.cg_hints.specs.inner.Judging.{Certifying, IsBuilt, IsJudged, Pushes, by_claims, size_of};
ghost use Rattle.cg_hints.specs.inner.Sizes.{too_many};
ghost use Rattle.cg_hints.specs.inner.Standing.{IsBackedBy, LeadsOn};
ghost use Rattle.cg_stage_laws.specs.Appends.{Keeps};
ghost use Rattle.cg_machine.specs.Machine.{IsMachine};
ghost use Rattle.cg_unroll_cycles.specs.Asking.{AsksThere};

use crate::cells::early_end;
use crate::claims::{Claims, Size, claims_of, question, refused_size};
use crate::insert::insert;
use crate::rules::{Entry, Rules};
use crate::standing::Standing;
use cg_hint_laws::certificate::HintCertificate;
use cg_hint_laws::hint::Hint;
use cg_hint_laws::laws::hint_laws;
use cg_hint_laws::outcome::{HintClaim, HintOutcome};
use cg_hint_laws::outcome_laws::outcome_laws;
use cg_judge::decider::ClaimDecider;
use cg_judge::trying::keep_where;
use cg_machine::machine::Machine;
use cg_netlist::fault::AddFault;
use cg_unroll_cycles::unroller::CycleUnroller;
use std::alloc::{AllocError, Global};

/// What tries hints, in buffers that are kept, so that a claim costs what it reaches.
#[derive(Drop)]
pub struct Judge {
    pub(crate) alloc: Global,
    pub(crate) unroller: CycleUnroller,
    pub(crate) decider: ClaimDecider,
}

impl Judge {
    /// With empty buffers; takes no memory.
    pub fn new(alloc: Global) -> Judge {
        Judge {
            alloc,
            unroller: CycleUnroller::new(alloc),
            decider: ClaimDecider::new(alloc),
        }
    }

    /// Tries a hint on a machine that is lent, as [`apply`](crate::apply::apply) says.
    pub fn apply(
        &mut self,
        machine: &mut Machine,
        number: u32,
        hint: &Hint,
        rules: &Rules<'_>,
        into: &mut Vec<HintCertificate>,
    ) -> Result<HintOutcome, AddFault>
        requires { Fits machine.old hint.now }
        ensures applied { IfOk result (λ outcome. IsApplied rules.now.library.now rules.now.width rules.now.proof number machine.old hint.now
            into.old.items outcome machine.new into.new.items) }
        ensures refused { IfErr result (λ fault. IsRefused rules.now.library.now rules.now.width machine.old hint.now
            into.old.items fault machine.new into.new.items) }
        ensures whole { IsMachine machine.new }
    {
        hint_laws();
        outcome_laws();
        let _before = machine.netlist();
        let count = into.len();
        let entry = Entry { number, hint };
        let result = self.try_pushing(machine, &entry, rules, into);
        let _after = machine.netlist();
        match result {
            Ok(outcome) => {
                keep_where(outcome.is_inserted(), count, into);
                Ok(outcome)
            }
            Err(fault) => {
                into.truncate(count);
                Err(fault)
            }
        }
    }

    /// Tries a hint, and puts certificates behind `into` also where it is not inserted.
    fn try_pushing(
        &mut self,
        machine: &mut Machine,
        entry: &Entry<'_>,
        rules: &Rules<'_>,
        into: &mut Vec<HintCertificate>,
    ) -> Result<HintOutcome, AddFault>
        requires { Fits machine.old entry.now.hint.now }
        ensures answer { IsAnswer machine.old entry.now.hint.now (tried rules.now.library.now rules.now.width machine.old entry.now.hint.now) result }
        ensures machine { IfOk result (λ outcome. machine.new ≡ after_outcome machine.old entry.now.hint.now outcome) }
        ensures certificates { IfOk result (Pushes rules.now.proof machine.old entry.now.number entry.now.hint.now into.old.items into.new.items) }
        ensures kept { OnErr result (Keeps machine.old machine.new) }
        ensures grown { Grow into.old.items into.new.items }
    {
        match early_end(machine, entry.hint, rules.library) {
            Some(outcome) => Ok(outcome),
            None => self.try_claims(machine, entry, rules, into),
        }
    }

    /// Tries a hint of which no register has an enable, and the library has the cells.
    fn try_claims(
        &mut self,
        machine: &mut Machine,
        entry: &Entry<'_>,
        rules: &Rules<'_>,
        into: &mut Vec<HintCertificate>,
    ) -> Result<HintOutcome, AddFault>
        requires { Fits machine.old entry.now.hint.now }
        ensures answer { IsAnswer machine.old entry.now.hint.now (by_claims rules.now.width machine.old entry.now.hint.now) result }
        ensures machine { IfOk result (λ outcome. machine.new ≡ after_outcome machine.old entry.now.hint.now outcome) }
        ensures certificates { IfOk result (Pushes rules.now.proof machine.old entry.now.number entry.now.hint.now into.old.items into.new.items) }
        ensures kept { OnErr result (Keeps machine.old machine.new) }
        ensures grown { Grow into.old.items into.new.items }
    {
        let _netlist = machine.netlist();
        let claims = Claims {
            machine,
            number: entry.number,
            hint: entry.hint,
            width: rules.width,
            proof: rules.proof,
        };
        if let Some(end) = self.judge_claims(&claims, into)? {
            return Ok(end);
        }
        insert(self.alloc, machine, entry.hint)?;
        Ok(HintOutcome::Inserted)
    }

    /// How a hint ends by its claims; where it does not, their certificates are put behind `into`, if proofs are wanted.
    fn judge_claims(
        &mut self,
        claims: &Claims<'_>,
        into: &mut Vec<HintCertificate>,
    ) -> Result<Option<HintOutcome>, AddFault>
        requires { Fits claims.now.machine.now claims.now.hint.now }
        ensures judged { IfOk result
            (IsJudged claims.now.machine.now claims.now.hint.now (by_claims claims.now.width claims.now.machine.now claims.now.hint.now)) }
        ensures certificates { IfOk result
            (Certifying claims.now.proof claims.now.machine.now claims.now.number claims.now.hint.now into.old.items into.new.items) }
        ensures fault { IfErr result (MayFail (by_claims claims.now.width claims.now.machine.now claims.now.hint.now)) }
        ensures grown { Grow into.old.items into.new.items }
    {
        let names = claims_of(self.alloc, claims.hint.regs.as_slice())?;
        self.judge_each(claims, names.as_slice(), into)
    }

    /// How a hint ends by its claims, which are these in order. Each is built once. Once something stands against the hint, those left
    /// are built for their sizes alone: one of them may yet be too wide, and that comes first.
    fn judge_each(
        &mut self,
        claims: &Claims<'_>,
        names: &[HintClaim],
        into: &mut Vec<HintCertificate>,
    ) -> Result<Option<HintOutcome>, AddFault>
        requires fits { Fits claims.now.machine.now claims.now.hint.now }
        requires names { names.now ≡ all_claims claims.now.hint.now }
        ensures judged { IfOk result
            (IsJudged claims.now.machine.now claims.now.hint.now (by_claims claims.now.width claims.now.machine.now claims.now.hint.now)) }
        ensures certificates { IfOk result
            (Certifying claims.now.proof claims.now.machine.now claims.now.number claims.now.hint.now into.old.items into.new.items) }
        ensures fault { IfErr result (MayFail (by_claims claims.now.width claims.now.machine.now claims.now.hint.now)) }
        ensures grown { Grow into.old.items into.new.items }
    {
        let _netlist = claims.machine.netlist();
        let mut standing = Standing::Open;
        for claim in names {
            let size = self.measure(claims, *claim)?;
            if let Some(leaves) = size.too_many() {
                return Ok(Some(HintOutcome::Wide(*claim, leaves)));
            }
            standing = self.settle(claims, *claim, size, standing, into)?;
        }
        standing.end()
    }

    /// Builds a claim, and answers its size.
    fn measure(&mut self, claims: &Claims<'_>, claim: HintClaim) -> Result<Size, AllocError>
        requires { AsksThere claims.now.machine.now (question_of claims.now.hint.now claim) }
        ensures size { IfOk result (λ size. size ≡ size_of claims.now.width claims.now.machine.now (question_of claims.now.hint.now claim)) }
        ensures built { IfOk result (IsBuilt claims.now.machine.now (question_of claims.now.hint.now claim) claims.now.width self.new.unroller) }
    {
        let question = question(claims.hint, claim);
        match self.unroller.build(claims.machine, &question, claims.width) {
            Ok(()) => Ok(Size::Fits),
            Err(fault) => refused_size(fault),
        }
    }

    /// What stands once a claim of this size that is not too wide, which was built last, had its turn: it is decided where nothing
    /// stood before it.
    fn settle(
        &mut self,
        claims: &Claims<'_>,
        claim: HintClaim,
        size: Size,
        standing: Standing,
        into: &mut Vec<HintCertificate>,
    ) -> Result<Standing, AllocError>
        requires there { AsksThere claims.now.machine.now (question_of claims.now.hint.now claim) }
        requires size { size ≡ size_of claims.now.width claims.now.machine.now (question_of claims.now.hint.now claim) }
        requires narrow { too_many size ≡ None }
        requires built { IsBuilt claims.now.machine.now (question_of claims.now.hint.now claim) claims.now.width self.old.unroller size }
        requires backed { IsBackedBy claims.now.machine.now claims.now.hint.now standing }
        ensures leads { IfOk result (LeadsOn claims.now.width claims.now.machine.now claims.now.hint.now claim standing) }
        ensures backed { IfOk result (IsBackedBy claims.now.machine.now claims.now.hint.now) }
        ensures certified { IfOk result
            (CertifiesOn claims.now.proof claims.now.number claims.now.machine.now claims.now.hint.now claim into.old.items into.new.items standing) }
        ensures grown { Grow into.old.items into.new.items }
    {
        if size.is_large() {
            return Ok(Standing::Large);
        }
        match standing {
            Standing::Open => self.decide(claims, claim, into),
            Standing::Settled(end) => Ok(Standing::Settled(end)),
            Standing::Large => Ok(Standing::Large),
        }
    }
}
