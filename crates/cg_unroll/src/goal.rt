//! The goal of a claim.

ghost use Rattle.std.specs.Prelude.{◌≡◌, ◌<◌, length, slice_index_or, IfErr, IfOk, IsTrue};
ghost use Rattle.std.specs.List.{All};
ghost use Rattle.cg_cell.specs.Build.{build_and, build_xor, chain};
ghost use Rattle.cg_cell.specs.Domain.{AreValid};
ghost use Rattle.cg_aig.specs.Aig.{aig_ops, inverse};
ghost use Rattle.cg_claim.specs.Build.{aig_values, enable_run, goal_run, literal_of, part_run};
ghost use Rattle.cg_claim_reach.specs.Asking.{AsksThere, PartThere, part_of, question_of};
ghost use Rattle.cg_unroll.specs.Building.{Built, MayFail};
ghost use Rattle.cg_unroll.specs.Placing.{IsCopy};
ghost use Rattle.cg_unroll.specs.inner.Copying.{AreTables, copies_of, sides_run};

use crate::literals::Literals;
use crate::next::next_literal;
use crate::tables::{CopyTables, Tables};
use cg_aig::{Aig, AigFault, AigLit};
use cg_claim_reach::asked::{Asked, Part, Side};
use cg_machine::machine::Machine;
use cg_machine::stage::NetLit;

/// The literal of the goal of a claim: the inverse of the joined enable, and, where the claim has sides, 1 where in
/// addition they differ. The joined enable is built first, then the sides from the left, and then what joins them.
pub(crate) fn goal_literal(
    machine: &Machine,
    asked: &Asked<'_>,
    tables: &Tables,
    aig: &mut Aig,
    buffer: &mut Vec<AigLit>,
) -> Result<AigLit, AigFault>
    requires asked { AsksThere machine.now (question_of asked.now) }
    requires tables { AreTables machine.now aig.old tables.now }
    ensures built { IfOk result (λ v. Built aig.old aig.new v
        (goal_run aig_values machine.now (question_of asked.now) (copies_of tables.now aig.old))) }
    ensures failed { IfErr result (λ fault. MayFail
        (goal_run aig_values machine.now (question_of asked.now) (copies_of tables.now aig.old)).domain fault) }
{
    let joined = enable_literal(asked.enables, &tables.before.nets, aig)?;
    match asked.sides {
        Some((one, other)) => {
            let sources = SideSources {
                machine,
                enables: asked.enables,
                tables,
            };
            differing(&sources, joined, one, other, aig, buffer)
        }
        None => Ok(joined.not()),
    }
}

/// What the sides of a goal are read from: a machine, the literals of its joined enable, and its copies.
#[derive(Clone, Copy)]
struct SideSources<'a> {
    machine: &'a Machine,
    enables: &'a [NetLit],
    tables: &'a Tables,
}

/// The literal that is 1 where the joined enable is 0 and two sides differ.
fn differing(
    sources: &SideSources<'_>,
    joined: AigLit,
    one: Side,
    other: Side,
    aig: &mut Aig,
    buffer: &mut Vec<AigLit>,
) -> Result<AigLit, AigFault>
    requires nets { All (λ l. l.0 < length sources.now.machine.now.circuit.names) sources.now.enables.now }
    requires joined { IsTrue (aig_ops.is_valid aig.old joined) }
    requires one { PartThere sources.now.machine.now (part_of one.part) }
    requires other { PartThere sources.now.machine.now (part_of other.part) }
    requires tables { AreTables sources.now.machine.now aig.old sources.now.tables.now }
    ensures built { IfOk result (λ v. Built aig.old aig.new v
        (sides_run sources.now.machine.now sources.now.enables.now sources.now.tables.now joined one other aig.old)) }
    ensures failed { IfErr result (λ fault. MayFail
        (sides_run sources.now.machine.now sources.now.enables.now sources.now.tables.now joined one other aig.old).domain fault) }
{
    let machine = sources.machine;
    let enables = sources.enables;
    let left = part_literal(
        machine,
        one.part,
        enables,
        sources.tables.copy(one.frame),
        aig,
        buffer,
    )?;
    let right = part_literal(
        machine,
        other.part,
        enables,
        sources.tables.copy(other.frame),
        aig,
        buffer,
    )?;
    differing_literal(joined, left, right, aig)
}

/// The literal of a part of a copy.
fn part_literal(
    machine: &Machine,
    part: Part,
    enables: &[NetLit],
    copy: &CopyTables,
    aig: &mut Aig,
    buffer: &mut Vec<AigLit>,
) -> Result<AigLit, AigFault>
    requires part { PartThere machine.now (part_of part) }
    requires nets { All (λ l. l.0 < length machine.now.circuit.names) enables.now }
    requires copy { IsCopy machine.now aig.old copy.now }
    ensures built { IfOk result (λ v. Built aig.old aig.new v
        (part_run aig_values machine.now enables.now (λ x. slice_index_or copy.now.nets x 0) (λ r. slice_index_or copy.now.states r 0)
        (part_of part) aig.old)) }
    ensures failed { IfErr result (λ fault. MayFail
        (part_run aig_values machine.now enables.now (λ x. slice_index_or copy.now.nets x 0) (λ r. slice_index_or copy.now.states r 0)
        (part_of part) aig.old).domain fault) }
{
    let _leaves = aig.leaves();
    match part {
        Part::Net(net) => Ok(copy.nets.get(net.number() as usize)),
        Part::Next(reg) => next_literal(machine, reg, &copy.states, &copy.nets, aig, buffer),
        Part::State(reg) => Ok(copy.states.get(reg.number() as usize)),
        Part::Enable => enable_literal(enables, &copy.nets, aig),
    }
}

/// The literal of the joined enable: the `or` of its literals from the left, and the constant 0 without any.
fn enable_literal(
    enables: &[NetLit],
    literals: &Literals,
    aig: &mut Aig,
) -> Result<AigLit, AigFault>
    requires nets { All (λ l. l.0 < length literals.now) enables.now }
    requires valid { AreValid aig_ops aig.old literals.now }
    ensures built { IfOk result (λ v. Built aig.old aig.new v (enable_run aig_values (λ x. slice_index_or literals.now x 0) enables.now aig.old)) }
    ensures failed { IfErr result (λ fault. MayFail (enable_run aig_values (λ x. slice_index_or literals.now x 0) enables.now aig.old).domain fault) }
{
    if enables.is_empty() {
        return Ok(aig.constant(false));
    }
    let mut joined = net_literal(enables[0], literals);
    for k in 1..enables.len() {
        joined = aig.or(joined, net_literal(enables[k], literals))?;
    }
    Ok(joined)
}

/// The literal of a net, or the inverse.
pub fn net_literal(literal: NetLit, literals: &Literals) -> AigLit
    requires { literal.0 < length literals.now }
    ensures { result ≡ literal_of aig_values (λ x. slice_index_or literals.now x 0) literal }
{
    let plain = literals.get(literal.net.number() as usize);
    if literal.inverted { plain.not() } else { plain }
}

/// The literal that is 1 where the joined enable is 0 and two literals differ.
pub fn differing_literal(
    joined: AigLit,
    one: AigLit,
    other: AigLit,
    aig: &mut Aig,
) -> Result<AigLit, AigFault>
    requires joined { IsTrue (aig_ops.is_valid aig.old joined) }
    requires one { IsTrue (aig_ops.is_valid aig.old one) }
    requires other { IsTrue (aig_ops.is_valid aig.old other) }
    ensures built { IfOk result (λ v. Built aig.old aig.new v
        (chain (build_xor aig_ops one other aig.old) (λ x s. build_and aig_ops (inverse joined) x s))) }
    ensures failed { IfErr result (λ fault. MayFail
        (chain (build_xor aig_ops one other aig.old) (λ x s. build_and aig_ops (inverse joined) x s)).domain fault) }
{
    let differ = aig.xor(one, other)?;
    aig.and(joined.not(), differ)
}
