//! The list and the goal of a claim, built from what is reached.

ghost use Rattle.std.specs.Prelude.{◌≡◌, IfErr, IfOk, IsTrue, OnOk, length};
ghost use Rattle.cg_aig.specs.Aig.{aig_ops};
ghost use Rattle.cg_cell.specs.Build.{Builds};
ghost use Rattle.cg_claim.specs.Build.{aig_values, claim_run, leaf_list, question_run};
ghost use Rattle.cg_claim.specs.Leaves.{width_of};
ghost use Rattle.cg_claim_reach.specs.Asking.{AsksThere, question_of};
ghost use Rattle.cg_unroll.specs.Building.{Built, MayFail};
ghost use Rattle.cg_unroll.specs.Claims.{IsClaim, IsRefused};
ghost use Rattle.cg_unroll.specs.Holding.{HoldsBefore};
ghost use Rattle.cg_claim_reach.specs.Reached.{IsReached};

use crate::claim::ClaimFault;
use crate::copy::lay_copy;
use crate::goal::goal_literal;
use crate::states::{StateSources, carry_states, put_states};
use crate::tables::Tables;
use cg_aig::{Aig, AigFault, AigLit};
use cg_claim_reach::asked::Asked;
use cg_claim_reach::reached::Reached;
use cg_limit::{Limit, MOST_CLAIM_NODES};
use cg_machine::machine::Machine;
use std::alloc::Global;

/// What builds lists and goals, in buffers that are kept from claim to claim.
#[derive(Drop)]
pub(crate) struct Builder {
    pub(crate) aig: Aig,
    pub(crate) goal: AigLit,
    pub(crate) tables: Tables,
    buffer: Vec<AigLit>,
}

impl Builder {
    /// The empty list, with the constant 0 as its goal; takes no memory.
    pub(crate) fn new(alloc: Global) -> Builder {
        let mut aig = Aig::new(alloc, 0).unwrap();
        let goal = aig.constant(false);
        Builder {
            aig,
            goal,
            tables: Tables::new(alloc),
            buffer: Vec::new(alloc),
        }
    }

    /// The list and the goal, taken out of what built them.
    pub(crate) fn finish(self) -> (Aig, AigLit)
        ensures { result ≡ (self.aig, self.goal) }
    {
        (self.aig, self.goal)
    }

    /// Builds the list and the goal of a question that reaches this, if it is narrow. The leaves are those that are reached.
    pub(crate) fn build_narrow(
        &mut self,
        machine: &Machine,
        asked: &Asked<'_>,
        reached: &Reached,
        width: u32,
    ) -> Result<(), ClaimFault>
        requires asked { AsksThere machine.now (question_of asked.now) }
        requires reached { IsReached machine.now (question_of asked.now) reached.now }
        ensures claim { OnOk result (IsClaim machine.now (question_of asked.now) width
            (record { aig = self.new.aig; goal = self.new.goal; leaves = reached.now.leaves })) }
        ensures nets { OnOk result (HoldsBefore machine.now (question_of asked.now) (leaf_list (width_of machine.now (question_of asked.now)))
            self.new.aig self.new.tables.before.nets) }
        ensures refused { IfErr result (IsRefused machine.now (question_of asked.now) width) }
    {
        let _netlist = machine.netlist();
        let count = reached.leaves.len();
        if count > width as usize {
            return Err(ClaimFault::Wide(count as u32));
        }
        self.build(machine, asked, reached)?;
        let _leaves = self.aig.leaves();
        Ok(())
    }

    /// Builds the list and the goal of a claim in place of what was built before, at the cost of what the claim reaches
    /// and of the list that was there.
    fn build(
        &mut self,
        machine: &Machine,
        asked: &Asked<'_>,
        reached: &Reached,
    ) -> Result<(), AigFault>
        requires asked { AsksThere machine.now (question_of asked.now) }
        requires reached { IsReached machine.now (question_of asked.now) reached.now }
        ensures built { OnOk result (Builds (claim_run machine.now (question_of asked.now)) self.new.aig self.new.goal) }
        ensures valid { OnOk result (IsTrue (aig_ops.is_valid self.new.aig self.new.goal)) }
        ensures nets { OnOk result (HoldsBefore machine.now (question_of asked.now) (leaf_list (width_of machine.now (question_of asked.now)))
            self.new.aig self.new.tables.before.nets) }
        ensures failed { IfErr result (λ fault. MayFail (claim_run machine.now (question_of asked.now)).domain fault) }
    {
        let leaves = reached.leaves.len();
        if leaves > MOST_CLAIM_NODES as usize {
            return Err(AigFault::Limit(Limit::ClaimNodes));
        }
        self.aig.clear(leaves as u32)?;
        self.goal = build_claim(
            machine,
            asked,
            reached,
            &mut self.tables,
            &mut self.aig,
            &mut self.buffer,
        )?;
        Ok(())
    }
}

/// Builds the list and the goal of a claim into a list that has its leaves: the first copy, the states after it, the copy
/// that these make, the copy with other bits in some registers, and the goal over them.
fn build_claim(
    machine: &Machine,
    asked: &Asked<'_>,
    reached: &Reached,
    tables: &mut Tables,
    aig: &mut Aig,
    buffer: &mut Vec<AigLit>,
) -> Result<AigLit, AigFault>
    requires asked { AsksThere machine.now (question_of asked.now) }
    requires reached { IsReached machine.now (question_of asked.now) reached.now }
    requires leaves { length reached.now.leaves ≡ aig.old.number }
    ensures built { IfOk result (λ goal. Built aig.old aig.new goal (question_run aig_values machine.now (question_of asked.now) aig.old)) }
    ensures nets { OnOk result (HoldsBefore machine.now (question_of asked.now) aig.old aig.new tables.new.before.nets) }
    ensures failed { IfErr result (λ fault. MayFail (question_run aig_values machine.now (question_of asked.now) aig.old).domain fault) }
{
    let _netlist = machine.netlist();
    tables.start(machine, reached.leaves.as_slice(), aig)?;
    lay_copy(
        machine,
        &reached.before,
        &tables.before.states,
        aig,
        &mut tables.before.nets,
        buffer,
    )?;
    let sources = StateSources {
        own: &tables.before.states,
        free: &tables.free,
        nets: &tables.before.nets,
    };
    put_states(
        machine,
        reached.states.as_slice(),
        &sources,
        aig,
        &mut tables.after.states,
        buffer,
    )?;
    lay_copy(
        machine,
        &reached.after,
        &tables.after.states,
        aig,
        &mut tables.after.nets,
        buffer,
    )?;
    carry_states(
        reached.states.as_slice(),
        &tables.after.states,
        &mut tables.changed.states,
    )?;
    lay_copy(
        machine,
        &reached.changed,
        &tables.changed.states,
        aig,
        &mut tables.changed.nets,
        buffer,
    )?;
    goal_literal(machine, asked, tables, aig, buffer)
}
