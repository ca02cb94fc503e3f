//! The registers at the edge of a cone, whose outputs the cells of a copy read.

ghost use Rattle.std.specs.Prelude.{◌<◌, ◌≤◌, length, map, slice_index_or, IfErr, OnOk, ◌≡◌};
ghost use Rattle.std.specs.List.{All, flat_map};
ghost use Rattle.cg_aig.specs.Aig.{aig_ops};
ghost use Rattle.cg_aig.specs.declared.fault.AigFault.TheVariants.{NoMemory};
ghost use Rattle.cg_cell.specs.Domain.{AreValid};
ghost use Rattle.cg_unroll.specs.inner.Filling.{AgreesAt, AgreesWith, AgreesWithAll, IsValid, Puts, nets_shown};

use crate::literals::Literals;
use cg_aig::{AigFault, AigLit};
use cg_machine::machine::Machine;
use cg_net::id::{NetId, RegId};

/// Puts at the outputs of these registers the literals of their states, or the inverse where an output shows that.
pub(crate) fn put_registers(
    machine: &Machine,
    registers: &[RegId],
    states: &Literals,
    literals: &mut Literals,
) -> Result<(), AigFault>
    requires registers { All (λ r. r < length machine.now.circuit.registers) registers.now }
    requires states { length machine.now.circuit.registers ≤ length states.now }
    requires literals { length machine.now.circuit.names ≤ length literals.old }
    ensures put { OnOk result (Puts (AgreesWithAll machine.now (λ r. slice_index_or states.now r 0)) (λ s. AreValid aig_ops s states.now)
        (flat_map (nets_shown machine.now) registers.now) literals.old literals.new) }
    ensures failed { IfErr result (λ fault. fault ≡ NoMemory) }
{
    for k in 0..registers.len() {
        let reg = registers[k];
        let state = states.get(reg.number() as usize);
        put_register(machine, reg, state, literals)?;
    }
    Ok(())
}

/// Puts at the outputs of a register what they show.
fn put_register(
    machine: &Machine,
    reg: RegId,
    state: AigLit,
    literals: &mut Literals,
) -> Result<(), AigFault>
    requires register { reg < length machine.now.circuit.registers }
    requires literals { length machine.now.circuit.names ≤ length literals.old }
    ensures put { OnOk result (Puts (AgreesWith machine.now reg state) (IsValid state) (nets_shown machine.now reg) literals.old literals.new) }
    ensures failed { IfErr result (λ fault. fault ≡ NoMemory) }
{
    let netlist = machine.netlist();
    if machine.is_delay(reg) {
        let (_, output) = machine.delay(reg);
        literals.put(output.number() as usize, state)
    } else {
        put_outputs(netlist.register(reg).outputs, state, literals)
    }
}

/// Puts at these outputs the literal, or the inverse where they show that.
fn put_outputs(
    outputs: &[(NetId, bool)],
    state: AigLit,
    literals: &mut Literals,
) -> Result<(), AigFault>
    requires { All (λ output. output.0 < length literals.old) outputs.now }
    ensures put { OnOk result (Puts (AgreesAt outputs.now state) (IsValid state) (map (λ output. output.0) outputs.now) literals.old literals.new) }
    ensures failed { IfErr result (λ fault. fault ≡ NoMemory) }
{
    for k in 0..outputs.len() {
        let (net, inverted) = outputs[k];
        let shown = if inverted { state.not() } else { state };
        literals.put(net.number() as usize, shown)?;
    }
    Ok(())
}
