//! The claims of a stage, by their names and as they are built, and how a stage ends by the measure of one.

ghost use Rattle.std.specs.Prelude.{◌≡◌, ◌<◌, length, map, IfErr, IfOk, OnOk};
ghost use Rattle.cg_claim.specs.declared.name.ClaimName.TheVariants.{Hold, Stable};
ghost use Rattle.cg_limit.specs.Answers.{OrNoMemory};
ghost use Rattle.cg_netlist.specs.declared.fault.AddFault.TheVariants.{NoMemory};
ghost use Rattle.cg_plan.specs.inner.Measuring.{IsBuilt, wide_end};
ghost use Rattle.cg_plan.specs.inner.Naming.{AreNames, NameFits, named, question_of};
ghost use Rattle.cg_claim_reach.specs.Fanout.{Knows};
ghost use Rattle.cg_stage_laws.specs.Stages.{Fits, first_literal};
ghost use Rattle.cg_unroll.specs.Claims.{IsClaim, IsRefused};

use cg_claim::name::ClaimName;
use cg_claim_reach::fanout::Fanout;
use cg_claim_reach::unseen::UnseenRegs;
use cg_machine::machine::Machine;
use cg_machine::stage::{NetLit, Stage, StageKind};
use cg_net::id::RegId;
use cg_netlist::fault::AddFault;
use cg_plan_laws::outcome::Outcome;
use cg_unroll::claim::ClaimFault;
use cg_unroll::unroller::Unroller;
use std::alloc::{AllocError, Global};
use std::marker::Model;

/// A stage with the sets of its registers and of its guards, which all its claims share. Clauses see the stage.
#[derive(Drop)]
pub(crate) struct StageSets<'a> {
    pub(crate) stage: &'a Stage,
    pub(crate) unseen: UnseenRegs<'a>,
}

impl<'a> Model for StageSets<'a> {
    ghost use Rattle.std.specs.Prelude.{◌≡◌};
    ghost use Rattle.cg_machine.specs.declared.stage.Stage.{Stage};
    ghost use Rattle.cg_plan.specs.inner.Naming.{unseen_of};

    ghost Value = { Stage };

    ghost view = { λ s. s.stage.now };

    ghost invariant = { λ s. s.unseen ≡ unseen_of s.stage.now };
}

impl<'a> StageSets<'a> {
    /// The stage with its sets.
    pub(crate) fn new(alloc: Global, stage: &'a Stage) -> Result<StageSets<'a>, AllocError>
        ensures { IfOk result (λ sets. sets ≡ stage.now) }
    {
        let unseen = UnseenRegs::new(alloc, stage.guards.as_slice(), stage.regs.as_slice())?;
        Ok(StageSets { stage, unseen })
    }
}

/// The names of the claims of a stage in order, but for that it can idle: one for each register, or one for each target
/// that one of them reaches.
pub(crate) fn claim_names(
    alloc: Global,
    machine: &Machine,
    fanout: &mut Fanout,
    stage: &Stage,
) -> Result<Vec<ClaimName>, AllocError>
    requires fits { Fits machine.now stage.now }
    requires knows { Knows machine.now fanout.old }
    ensures names { IfOk result (λ names. AreNames machine.now stage.now names.items) }
    ensures knows { OnOk result (Knows machine.now fanout.new) }
{
    let _netlist = machine.netlist();
    let regs = stage.regs.as_slice();
    match stage.kind {
        StageKind::Hold => hold_names(alloc, regs),
        StageKind::Stable => stable_names(alloc, regs),
        StageKind::Unseen => fanout.unseen_targets(machine, stage.enable.as_slice(), regs),
    }
}

/// The names of the claims of a hold stage.
fn hold_names(alloc: Global, regs: &[RegId]) -> Result<Vec<ClaimName>, AllocError>
    ensures { IfOk result (λ names. names.items ≡ map Hold regs.now) }
{
    let mut names = Vec::new(alloc);
    for reg in regs {
        names.push(ClaimName::Hold(*reg))?;
    }
    Ok(names)
}

/// The names of the claims of a stability stage.
fn stable_names(alloc: Global, regs: &[RegId]) -> Result<Vec<ClaimName>, AllocError>
    ensures { IfOk result (λ names. names.items ≡ map Stable regs.now) }
{
    let mut names = Vec::new(alloc);
    for reg in regs {
        names.push(ClaimName::Stable(*reg))?;
    }
    Ok(names)
}

/// Builds the claim of this name; where it is too wide, the answer is that the stage ends so. It is refused where it has too
/// many nodes.
pub(crate) fn measure(
    unroller: &mut Unroller,
    machine: &Machine,
    stage: &StageSets<'_>,
    name: &ClaimName,
    width: u32,
) -> Result<Option<Outcome>, AddFault>
    requires fits { Fits machine.now stage.now }
    requires name { NameFits machine.now name.now }
    ensures end { OrNoMemory NoMemory (λ end. end) result (wide_end machine.now width (named machine.now stage.now name.now)) }
    ensures built { IfOk result (IsBuilt machine.now (question_of machine.now stage.now name.now) width unroller.new) }
{
    match build_claim(unroller, machine, stage, name, width) {
        Ok(()) => Ok(None),
        Err(ClaimFault::Wide(leaves)) => Ok(Some(Outcome::Wide(*name, leaves))),
        Err(ClaimFault::Limit(limit)) => Err(AddFault::Limit(limit)),
        Err(ClaimFault::NoMemory) => Err(AddFault::NoMemory),
    }
}

/// Builds the claim that a name names.
fn build_claim(
    unroller: &mut Unroller,
    machine: &Machine,
    stage: &StageSets<'_>,
    name: &ClaimName,
    width: u32,
) -> Result<(), ClaimFault>
    requires fits { Fits machine.now stage.now }
    requires name { NameFits machine.now name.now }
    ensures claim { OnOk result (IsClaim machine.now (question_of machine.now stage.now name.now) width unroller.new) }
    ensures refused { IfErr result (IsRefused machine.now (question_of machine.now stage.now name.now) width) }
{
    let _netlist = machine.netlist();
    let enables = stage.stage.enable.as_slice();
    match *name {
        ClaimName::Idle => unroller.idle(machine, enables, width),
        ClaimName::Hold(reg) => unroller.hold(machine, first_literal(enables), reg, width),
        ClaimName::Stable(reg) => unroller.stable(machine, enables, reg, width),
        ClaimName::Output(_) | ClaimName::Next(_) | ClaimName::Enable => {
            unroller.unseen(machine, enables, &stage.unseen, *name, width)
        }
    }
}

/// The literal of a hold stage, which has one.
pub(crate) fn first_literal(enables: &[NetLit]) -> NetLit
    requires { 0 < length enables.now }
    ensures { result ≡ first_literal enables.now }
{
    enables[0]
}
