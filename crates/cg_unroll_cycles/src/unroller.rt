//! The object that builds claims one after another, in buffers that are kept, and a call that builds one.

ghost use Rattle.std.specs.Prelude.{◌≡◌, Err, IfErr, IfOk, IsOk, OnOk};
ghost use Rattle.cg_hint_laws.specs.Leaves.{width_of};
ghost use Rattle.cg_unroll_cycles.specs.Asking.{AsksThere, question_of};
ghost use Rattle.cg_unroll_cycles.specs.Claims.{IsCycleClaim, IsCycleRefused};
ghost use Rattle.cg_unroll_cycles.specs.inner.Reached.{IsReached};

use crate::build::CycleBuilder;
use crate::cycle::Unrolling;
use crate::question::Question;
use crate::reached::{CycleReacher, Reached};
use cg_aig::{Aig, AigLit};
use cg_claim::leaf::Leaf;
use cg_list::Seq;
use cg_machine::machine::Machine;
use cg_unroll::claim::{Claim, ClaimFault};
use std::alloc::{AllocError, Global};
use std::marker::Model;

/// What builds claims over cycles, each in place of the one before.
///
/// A condition may be claimed for many registers. Buffers of the machine's size are made once, grown with it, and cleared
/// by what was touched, so a claim costs what it reaches. Clauses see the claim that was built last; a call that is refused
/// leaves none that is worth reading.
#[derive(Drop)]
pub struct CycleUnroller {
    reacher: CycleReacher,
    builder: CycleBuilder,
    leaves: Seq<Leaf>,
}

impl Model for CycleUnroller {
    ghost use Rattle.cg_unroll.specs.declared.claim.Claim.{Claim};

    ghost Value = { Claim };

    ghost view = { λ u. record { aig = u.builder.aig; goal = u.builder.goal; leaves = u.leaves } };
}

impl CycleUnroller {
    /// No claim yet; takes no memory.
    pub fn new(alloc: Global) -> CycleUnroller {
        CycleUnroller {
            reacher: CycleReacher::new(alloc),
            builder: CycleBuilder::new(alloc),
            leaves: Seq::new(alloc),
        }
    }

    /// The list of the claim.
    pub fn aig(&self) -> &Aig
        ensures { result.now ≡ self.now.aig }
    {
        &self.builder.aig
    }

    /// The goal of the claim.
    pub fn goal(&self) -> AigLit
        ensures { result ≡ self.now.goal }
    {
        self.builder.goal
    }

    /// What the leaves of the claim stand for, in the order of their numbers.
    pub fn leaves(&self) -> &[Leaf]
        ensures { result.now ≡ self.now.leaves }
    {
        self.leaves.as_slice()
    }

    /// The claim, taken out of what built it.
    pub fn into_claim(self) -> Claim
        ensures { result ≡ self }
    {
        let (aig, goal) = self.builder.finish();
        Claim {
            aig,
            goal,
            leaves: self.leaves,
        }
    }

    /// How many leaves a claim has, found without building it.
    pub fn width(&mut self, machine: &Machine, question: &Question<'_>) -> Result<u32, AllocError>
        requires { AsksThere machine.now (question_of question.now) }
        ensures { IfOk result (λ width. width ≡ width_of machine.now (question_of question.now)) }
    {
        let reached = self.reacher.reach(machine, question)?;
        Ok(leaf_count(machine, question, &reached))
    }

    /// Builds a claim: its goal is 1 at bits of the leaves exactly where the condition is 0 in the first cycle, and the
    /// register changes its bit in the last.
    ///
    /// It is refused by `Wide(n)` exactly where it has n leaves and n is above the width, and else by `Limit(ClaimNodes)`
    /// exactly where leaves and and-nodes are more than 65,536.
    pub fn build(
        &mut self,
        machine: &Machine,
        question: &Question<'_>,
        width: u32,
    ) -> Result<(), ClaimFault>
        requires { AsksThere machine.now (question_of question.now) }
        ensures claim { OnOk result (IsCycleClaim machine.now (question_of question.now) width self.new) }
        ensures refused { IfErr result (IsCycleRefused machine.now (question_of question.now) width) }
    {
        let reached = self.reacher.reach(machine, question)?;
        let built = self.build_narrow(machine, question, &reached, width);
        self.leaves = leaves_alone(reached);
        built
    }

    /// Builds the list and the goal of a question that reaches this, if it is narrow. The leaves are not put yet.
    fn build_narrow(
        &mut self,
        machine: &Machine,
        question: &Question<'_>,
        reached: &Reached,
        width: u32,
    ) -> Result<(), ClaimFault>
        requires asked { AsksThere machine.now (question_of question.now) }
        requires reached { IsReached machine.now (question_of question.now) reached.now }
        ensures claim { OnOk result (IsCycleClaim machine.now (question_of question.now) width
            (record { aig = self.new.aig; goal = self.new.goal; leaves = reached.now.leaves })) }
        ensures refused { IfErr result (IsCycleRefused machine.now (question_of question.now) width) }
    {
        let count = leaf_count(machine, question, reached);
        if count > width {
            return Err(ClaimFault::Wide(count));
        }
        let unrolling = Unrolling {
            machine,
            question,
            reached,
        };
        self.builder.build(&unrolling)?;
        let _leaves = self.builder.aig.leaves();
        Ok(())
    }
}

/// How many leaves a question has that reaches this.
fn leaf_count(machine: &Machine, question: &Question<'_>, reached: &Reached) -> u32
    requires { IsReached machine.now (question_of question.now) reached.now }
    ensures { result ≡ width_of machine.now (question_of question.now) }
{
    let _netlist = machine.netlist();
    let _after = question.after;
    reached.leaves.len() as u32
}

/// The leaves of what a claim reaches, without the rest.
fn leaves_alone(reached: Reached) -> Seq<Leaf>
    ensures { result ≡ reached.leaves }
{
    reached.leaves
}

/// The claim of a question, as [`build`](CycleUnroller::build) says.
pub fn hint_claim(
    alloc: Global,
    machine: &Machine,
    question: &Question<'_>,
    width: u32,
) -> Result<Claim, ClaimFault>
    requires { AsksThere machine.now (question_of question.now) }
    ensures claim { IfOk result (IsCycleClaim machine.now (question_of question.now) width) }
    ensures refused { IfErr result (IsCycleRefused machine.now (question_of question.now) width) }
{
    let mut unroller = CycleUnroller::new(alloc);
    let built = unroller.build(machine, question, width);
    claim_of(built, unroller)
}

/// The claim that was built, taken out of what built it, or why none was.
fn claim_of(built: Result<(), ClaimFault>, unroller: CycleUnroller) -> Result<Claim, ClaimFault>
    ensures claim { IfOk result (λ claim. IsOk built × (claim ≡ unroller)) }
    ensures refused { IfErr result (λ fault. built ≡ Err fault) }
{
    match built {
        Ok(()) => Ok(unroller.into_claim()),
        Err(fault) => {
            drop(unroller);
            Err(fault)
        }
    }
}
