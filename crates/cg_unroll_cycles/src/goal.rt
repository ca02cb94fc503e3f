//! The goal of a claim.

ghost use Rattle.std.specs.Prelude.{◌<◌, Some, length, IfErr, IfOk, IsTrue};
ghost use Rattle.cg_aig.specs.Aig.{aig_ops};
ghost use Rattle.cg_claim.specs.Build.{aig_values};
ghost use Rattle.cg_hint_laws.specs.Build.{goal_run, goal_of};
ghost use Rattle.cg_unroll.specs.Building.{Built, MayFail};
ghost use Rattle.cg_unroll.specs.Placing.{IsCopy};
ghost use Rattle.cg_unroll_cycles.specs.Asking.{AsksThere, question_of};
ghost use Rattle.cg_unroll_cycles.specs.inner.Laid.{cycle_of};

use crate::condition::condition_literal;
use crate::question::Question;
use cg_aig::{Aig, AigFault, AigLit};
use cg_machine::machine::Machine;
use cg_net::id::RegId;
use cg_unroll::goal::differing_literal;
use cg_unroll::next::next_literal;
use cg_unroll::tables::CopyTables;

/// The literal of the goal of a claim: the inverse of its condition in the first cycle, and, where there is a register, 1
/// where in addition its next bit differs from its bit in the last. The condition is built first.
pub(crate) fn goal_literal(
    machine: &Machine,
    question: &Question<'_>,
    first: &CopyTables,
    last: &CopyTables,
    aig: &mut Aig,
    buffer: &mut Vec<AigLit>,
) -> Result<AigLit, AigFault>
    requires asked { AsksThere machine.now (question_of question.now) }
    requires first { IsCopy machine.now aig.old first.now }
    requires last { IsCopy machine.now aig.old last.now }
    ensures built { IfOk result (λ v. Built aig.old aig.new v
        (goal_run aig_values machine.now (question_of question.now) (cycle_of first.now aig.old) (cycle_of last.now aig.old))) }
    ensures failed { IfErr result (MayFail
        (goal_run aig_values machine.now (question_of question.now) (cycle_of first.now aig.old) (cycle_of last.now aig.old)).domain) }
{
    let _nets = machine.nets();
    let condition = condition_literal(question.terms, &first.nets, aig)?;
    match question.register {
        Some(reg) => changes_literal(machine, reg, condition, last, aig, buffer),
        None => Ok(condition.not()),
    }
}

/// The literal that is 1 where the condition is 0 and a register changes its bit in the last cycle.
fn changes_literal(
    machine: &Machine,
    reg: RegId,
    condition: AigLit,
    last: &CopyTables,
    aig: &mut Aig,
    buffer: &mut Vec<AigLit>,
) -> Result<AigLit, AigFault>
    requires register { reg < length machine.now.circuit.registers }
    requires condition { IsTrue (aig_ops.is_valid aig.old condition) }
    requires last { IsCopy machine.now aig.old last.now }
    ensures built { IfOk result (λ v. Built aig.old aig.new v
        (goal_of aig_values machine.now (cycle_of last.now aig.old) (Some reg) condition aig.old)) }
    ensures failed { IfErr result (MayFail
        (goal_of aig_values machine.now (cycle_of last.now aig.old) (Some reg) condition aig.old).domain) }
{
    let next = next_literal(machine, reg, &last.states, &last.nets, aig, buffer)?;
    let own = last.states.get(reg.number() as usize);
    differing_literal(condition, next, own, aig)
}
