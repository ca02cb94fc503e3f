//! The list and the goal of a claim, built from what is reached.

ghost use Rattle.std.specs.Prelude.{◌≡◌, ◌<◌, length, IfErr, IfOk, IsTrue, OnOk};
ghost use Rattle.cg_aig.specs.Aig.{aig_ops};
ghost use Rattle.cg_cell.specs.Build.{Builds};
ghost use Rattle.cg_cell.specs.Domain.{Keeps, Seen};
ghost use Rattle.cg_claim.specs.Build.{aig_values};
ghost use Rattle.cg_hint_laws.specs.Build.{claim_run, question_run};
ghost use Rattle.cg_unroll.specs.Building.{Built, MayFail};
ghost use Rattle.cg_unroll.specs.Placing.{IsCopy};
ghost use Rattle.cg_unroll_cycles.specs.inner.Laid.{HoldsCycle, IsUnrolling, asked_by, built_cycle};

use crate::cycle::{Unrolling, lay_cycle, lay_first};
use crate::goal::goal_literal;
use cg_aig::{Aig, AigFault, AigLit};
use cg_limit::{Limit, MOST_CLAIM_NODES};
use cg_unroll::tables::CopyTables;
use std::alloc::Global;
use std::mem::swap;

/// The literals of the first cycle, which the condition is read from, of the last one that was laid, and of the one before
/// that.
#[derive(Drop)]
pub(crate) struct CycleTables {
    first: CopyTables,
    before: CopyTables,
    last: CopyTables,
}

impl CycleTables {
    /// Tables without places; takes no memory.
    fn new(alloc: Global) -> CycleTables {
        CycleTables {
            first: CopyTables::new(alloc),
            before: CopyTables::new(alloc),
            last: CopyTables::new(alloc),
        }
    }
}

/// What builds lists and goals, in buffers that are kept from claim to claim.
#[derive(Drop)]
pub(crate) struct CycleBuilder {
    pub(crate) aig: Aig,
    pub(crate) goal: AigLit,
    tables: CycleTables,
    buffer: Vec<AigLit>,
}

impl CycleBuilder {
    /// The empty list, with the constant 0 as its goal; takes no memory.
    pub(crate) fn new(alloc: Global) -> CycleBuilder {
        let mut aig = Aig::new(alloc, 0).unwrap();
        let goal = aig.constant(false);
        CycleBuilder {
            aig,
            goal,
            tables: CycleTables::new(alloc),
            buffer: Vec::new(alloc),
        }
    }

    /// The list and the goal, taken out of what built them.
    pub(crate) fn finish(self) -> (Aig, AigLit)
        ensures { result ≡ (self.aig, self.goal) }
    {
        (self.aig, self.goal)
    }

    /// Builds the list and the goal of a claim in place of what was built before, at the cost of what the claim reaches
    /// and of the list that was there.
    pub(crate) fn build(&mut self, unrolling: &Unrolling<'_>) -> Result<(), AigFault>
        requires { IsUnrolling unrolling.now }
        ensures built { OnOk result (Builds (claim_run unrolling.now.machine.now (asked_by unrolling.now)) self.new.aig self.new.goal) }
        ensures valid { OnOk result (IsTrue (aig_ops.is_valid self.new.aig self.new.goal)) }
        ensures failed { IfErr result (MayFail (claim_run unrolling.now.machine.now (asked_by unrolling.now)).domain) }
    {
        let leaves = unrolling.reached.leaves.len();
        if leaves > MOST_CLAIM_NODES as usize {
            return Err(AigFault::Limit(Limit::ClaimNodes));
        }
        self.aig.clear(leaves as u32)?;
        self.goal = build_claim(unrolling, &mut self.tables, &mut self.aig, &mut self.buffer)?;
        Ok(())
    }
}

/// Builds the list and the goal of a claim into a list that has its leaves: the cycles one after another, and then the
/// goal over the first and the last.
fn build_claim(
    unrolling: &Unrolling<'_>,
    tables: &mut CycleTables,
    aig: &mut Aig,
    buffer: &mut Vec<AigLit>,
) -> Result<AigLit, AigFault>
    requires unrolling { IsUnrolling unrolling.now }
    requires leaves { length unrolling.now.reached.now.leaves ≡ aig.old.number }
    ensures built { IfOk result (λ goal. Built aig.old aig.new goal
        (question_run aig_values unrolling.now.machine.now (asked_by unrolling.now) aig.old)) }
    ensures failed { IfErr result (MayFail
        (question_run aig_values unrolling.now.machine.now (asked_by unrolling.now) aig.old).domain) }
{
    lay_first(unrolling, aig, &mut tables.first, buffer)?;
    if unrolling.question.after == 0 {
        return goal_literal(
            unrolling.machine,
            unrolling.question,
            &tables.first,
            &tables.first,
            aig,
            buffer,
        );
    }
    lay_later(unrolling, tables, aig, buffer)?;
    goal_literal(
        unrolling.machine,
        unrolling.question,
        &tables.first,
        &tables.last,
        aig,
        buffer,
    )
}

/// Puts the cycles behind the first into the list, of which there is one at least.
fn lay_later(
    unrolling: &Unrolling<'_>,
    tables: &mut CycleTables,
    aig: &mut Aig,
    buffer: &mut Vec<AigLit>,
) -> Result<(), AigFault>
    requires unrolling { IsUnrolling unrolling.now }
    requires after { 0 < unrolling.now.question.now.after }
    requires leaves { length unrolling.now.reached.now.leaves ≡ aig.old.number }
    requires first { IsCopy unrolling.now.machine.now aig.old tables.old.first }
    ensures laid { OnOk result ((s : Seen) → HoldsCycle unrolling.now.machine.now (asked_by unrolling.now) s 0 aig.old tables.old.first
        → HoldsCycle unrolling.now.machine.now (asked_by unrolling.now) s unrolling.now.question.now.after aig.new tables.new.last) }
    ensures first { OnOk result (tables.new.first ≡ tables.old.first) }
    ensures keeps { OnOk result (Keeps aig_ops aig.old aig.new) }
    ensures last { OnOk result (IsCopy unrolling.now.machine.now aig.new tables.new.last) }
    ensures failed { IfErr result (λ fault. (s : Seen) → HoldsCycle unrolling.now.machine.now (asked_by unrolling.now) s 0 aig.old tables.old.first
        → MayFail (built_cycle unrolling.now.machine.now (asked_by unrolling.now) s unrolling.now.question.now.after).domain fault) }
{
    lay_cycle(unrolling, 0, &tables.first, aig, &mut tables.last, buffer)?;
    for behind in 1..unrolling.question.after {
        swap(&mut tables.before, &mut tables.last);
        lay_cycle(
            unrolling,
            behind,
            &tables.before,
            aig,
            &mut tables.last,
            buffer,
        )?;
    }
    Ok(())
}
