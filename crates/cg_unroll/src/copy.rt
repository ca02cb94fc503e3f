//! One copy of the machine, as far as a claim reaches it.

ghost use Rattle.std.specs.Prelude.{◌<◌, length, IfErr, OnOk};
ghost use Rattle.std.specs.List.{All};
ghost use Rattle.cg_unroll.specs.Laid.{CopyFails, LaysCopy};
ghost use Rattle.cg_unroll.specs.Placing.{IsLiteralTable};

use crate::edge::put_registers;
use crate::lay::lay_cells;
use crate::literals::Literals;
use cg_aig::{Aig, AigFault, AigLit};
use cg_machine::machine::Machine;
use cg_netlist_cone::cone::Cone;

/// Puts a copy of the machine into the list, as far as a cone reaches: the registers at its edge have the literals of
/// `states`, its data inputs have theirs in `nets`, and each net of the cone gets its own there.
pub fn lay_copy(
    machine: &Machine,
    cone: &Cone,
    states: &Literals,
    aig: &mut Aig,
    nets: &mut Literals,
    buffer: &mut Vec<AigLit>,
) -> Result<(), AigFault>
    requires cells { All (λ k. k < length machine.now.circuit.cells) cone.now.cells }
    requires registers { All (λ r. r < length machine.now.circuit.registers) cone.now.registers }
    requires states { IsLiteralTable (length machine.now.circuit.registers) aig.old states.now }
    requires nets { IsLiteralTable (length machine.now.circuit.names) aig.old nets.old }
    ensures laid { OnOk result (LaysCopy machine.now cone.now states.now aig.old aig.new nets.old nets.new) }
    ensures failed { IfErr result (CopyFails machine.now cone.now states.now aig.old nets.old) }
{
    let _netlist = machine.netlist();
    put_registers(machine, cone.registers.as_slice(), states, nets)?;
    lay_cells(machine, cone.cells.as_slice(), aig, nets, buffer)
}
