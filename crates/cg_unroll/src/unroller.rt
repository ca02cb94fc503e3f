//! The object that builds claims one after another, in buffers that are kept.

ghost use Rattle.std.specs.Prelude.{◌≡◌, ◌<◌, length, IfErr, OnOk};
ghost use Rattle.std.specs.List.{All};
ghost use Rattle.cg_claim.specs.Question.{hold_question, idle_question, stable_question, target_part, unseen_question};
ghost use Rattle.cg_unroll.specs.Claims.{IsClaim, IsRefused, IsTargetName, target_of};
ghost use Rattle.cg_claim_reach.specs.Asking.{AsksThere, PartThere, part_of, question_of};
ghost use Rattle.cg_claim_reach.specs.Reached.{IsReached};

use crate::build::Builder;
use crate::claim::{Claim, ClaimFault};
use cg_aig::{Aig, AigLit};
use cg_claim::leaf::Leaf;
use cg_claim::name::ClaimName;
use cg_claim_reach::asked::{Asked, Frame, Part, Side};
use cg_claim_reach::reached::{Reached, Reacher};
use cg_claim_reach::unseen::UnseenRegs;
use cg_list::Seq;
use cg_machine::machine::Machine;
use cg_machine::stage::NetLit;
use cg_net::id::RegId;
use std::alloc::Global;
use std::marker::Model;

/// What builds claims, each in place of the one before.
///
/// A plan makes hundreds of thousands of claims of one machine. Buffers of the machine's size are made once, grown with
/// it, and cleared by what was touched, so a claim costs what it reaches. Clauses see the claim that was built last; a
/// call that is refused leaves none that is worth reading.
#[derive(Drop)]
pub struct Unroller {
    reacher: Reacher,
    builder: Builder,
    leaves: Seq<Leaf>,
}

impl Model for Unroller {
    ghost use Rattle.cg_unroll.specs.declared.claim.Claim.{Claim};

    ghost Value = { Claim };

    ghost view = { λ u. record { aig = u.builder.aig; goal = u.builder.goal; leaves = u.leaves } };
}

impl Unroller {
    /// No claim yet; takes no memory.
    pub fn new(alloc: Global) -> Unroller {
        Unroller {
            reacher: Reacher::new(alloc),
            builder: Builder::new(alloc),
            leaves: Seq::new(alloc),
        }
    }

    /// The list of the claim.
    pub fn aig(&self) -> &Aig
        ensures { result.now ≡ self.now.aig }
    {
        &self.builder.aig
    }

    /// The goal of the claim.
    pub fn goal(&self) -> AigLit
        ensures { result ≡ self.now.goal }
    {
        self.builder.goal
    }

    /// What the leaves of the claim stand for, in the order of their numbers.
    pub fn leaves(&self) -> &[Leaf]
        ensures { result.now ≡ self.now.leaves }
    {
        self.leaves.as_slice()
    }

    /// The claim, taken out of what built it.
    pub fn into_claim(self) -> Claim
        ensures { result ≡ self }
    {
        let (aig, goal) = self.builder.finish();
        Claim {
            aig,
            goal,
            leaves: self.leaves,
        }
    }

    /// Builds the claim that the joined enable of a stage can be 0, as [`idle_claim`](crate::claim::idle_claim) says.
    pub fn idle(
        &mut self,
        machine: &Machine,
        enables: &[NetLit],
        width: u32,
    ) -> Result<(), ClaimFault>
        requires { All (λ l. l.0 < length machine.now.circuit.names) enables.now }
        ensures claim { OnOk result (IsClaim machine.now (idle_question enables.now) width self.new) }
        ensures refused { IfErr result (IsRefused machine.now (idle_question enables.now) width) }
    {
        let asked = Asked {
            enables,
            follows: &[],
            changes: &[],
            sides: None,
        };
        self.answer(machine, &asked, width)
    }

    /// Builds the claim that a register holds its bit where a literal is 0, as
    /// [`hold_claim`](crate::claim::hold_claim) says.
    pub fn hold(
        &mut self,
        machine: &Machine,
        enable: NetLit,
        reg: RegId,
        width: u32,
    ) -> Result<(), ClaimFault>
        requires net { enable.0 < length machine.now.circuit.names }
        requires register { reg < length machine.now.circuit.registers }
        ensures claim { OnOk result (IsClaim machine.now (hold_question enable reg) width self.new) }
        ensures refused { IfErr result (IsRefused machine.now (hold_question enable reg) width) }
    {
        let asked = Asked {
            enables: &[enable],
            follows: &[],
            changes: &[],
            sides: Some(keeps(Frame::Before, reg)),
        };
        self.answer(machine, &asked, width)
    }

    /// Builds the claim that a register holds its bit a cycle after the joined enable was 0, as
    /// [`stable_claim`](crate::claim::stable_claim) says.
    pub fn stable(
        &mut self,
        machine: &Machine,
        enables: &[NetLit],
        reg: RegId,
        width: u32,
    ) -> Result<(), ClaimFault>
        requires nets { All (λ l. l.0 < length machine.now.circuit.names) enables.now }
        requires register { reg < length machine.now.circuit.registers }
        ensures claim { OnOk result (IsClaim machine.now (stable_question enables.now reg) width self.new) }
        ensures refused { IfErr result (IsRefused machine.now (stable_question enables.now reg) width) }
    {
        let asked = Asked {
            enables,
            follows: &[reg],
            changes: &[],
            sides: Some(keeps(Frame::After, reg)),
        };
        self.answer(machine, &asked, width)
    }

    /// Builds the claim that a target does not show the bits of registers a cycle after the joined enable was 0, as
    /// [`unseen_claim`](crate::claim::unseen_claim) says.
    pub fn unseen(
        &mut self,
        machine: &Machine,
        enables: &[NetLit],
        unseen: &UnseenRegs<'_>,
        target: ClaimName,
        width: u32,
    ) -> Result<(), ClaimFault>
        requires nets { All (λ l. l.0 < length machine.now.circuit.names) enables.now }
        requires guards { All (λ r. r < length machine.now.circuit.registers) unseen.now.guards }
        requires registers { All (λ r. r < length machine.now.circuit.registers) unseen.now.regs }
        requires target { IsTargetName machine.now target }
        ensures claim { OnOk result
            (IsClaim machine.now (unseen_question enables.now unseen.now.guards unseen.now.regs (target_of machine.now target)) width self.new) }
        ensures refused { IfErr result
            (IsRefused machine.now (unseen_question enables.now unseen.now.guards unseen.now.regs (target_of machine.now target)) width) }
    {
        let after = Side {
            frame: Frame::After,
            part: target_part(machine, &target),
        };
        let changed = Side {
            frame: Frame::Changed,
            part: target_part(machine, &target),
        };
        let asked = Asked {
            enables,
            follows: unseen.guards(),
            changes: unseen.regs(),
            sides: Some((after, changed)),
        };
        let reached = self.reacher.reach_with(machine, &asked, unseen)?;
        self.build(machine, &asked, reached, width)
    }

    /// Builds the claim of a question that says something of few registers.
    fn answer(&mut self, machine: &Machine, asked: &Asked<'_>, width: u32) -> Result<(), ClaimFault>
        requires { AsksThere machine.now (question_of asked.now) }
        ensures claim { OnOk result (IsClaim machine.now (question_of asked.now) width self.new) }
        ensures refused { IfErr result (IsRefused machine.now (question_of asked.now) width) }
    {
        let reached = self.reacher.reach(machine, asked)?;
        self.build(machine, asked, reached, width)
    }

    /// Builds the claim of a question that reaches this, if it is narrow.
    fn build(
        &mut self,
        machine: &Machine,
        asked: &Asked<'_>,
        reached: Reached,
        width: u32,
    ) -> Result<(), ClaimFault>
        requires asked { AsksThere machine.now (question_of asked.now) }
        requires reached { IsReached machine.now (question_of asked.now) reached }
        ensures claim { OnOk result (IsClaim machine.now (question_of asked.now) width self.new) }
        ensures refused { IfErr result (IsRefused machine.now (question_of asked.now) width) }
    {
        let built = self.builder.build_narrow(machine, asked, &reached, width);
        self.leaves = leaves_alone(reached);
        built
    }
}

/// The leaves of what a claim reaches, without the rest.
pub(crate) fn leaves_alone(reached: Reached) -> Seq<Leaf>
    ensures { result ≡ reached.leaves }
{
    reached.leaves
}

/// That the next bit of a register, and its bit, differ in a copy.
pub(crate) fn keeps(frame: Frame, reg: RegId) -> (Side, Side)
    ensures { result ≡ (record { frame = frame; part = Part.Next reg }, record { frame = frame; part = Part.State reg }) }
{
    let next = Side {
        frame,
        part: Part::Next(reg),
    };
    let state = Side {
        frame,
        part: Part::State(reg),
    };
    (next, state)
}

/// The part that shows the target of a name.
fn target_part(machine: &Machine, name: &ClaimName) -> Part
    requires { IsTargetName machine.now name.now }
    ensures part { part_of result ≡ target_part (target_of machine.now name.now) }
    ensures there { PartThere machine.now (part_of result) }
{
    match name {
        ClaimName::Output(k) => Part::Net(machine.netlist().outputs()[*k as usize]),
        ClaimName::Next(reg) => Part::Next(*reg),
        _ => Part::Enable,
    }
}
