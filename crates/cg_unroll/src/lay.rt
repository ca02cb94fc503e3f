//! The cells of one copy, put into the list one after another.

ghost use Rattle.std.specs.Prelude.{◌≡◌, ◌<◌, ◌≤◌, ℕ, [], ◌∷◌, Some, length, map, slice_get, slice_index_or, IfErr, IfOk, OnOk};
ghost use Rattle.std.specs.List.{All};
ghost use Rattle.cg_cell.specs.Domain.{AreValid};
ghost use Rattle.cg_cell.specs.Eval.{build_term};
ghost use Rattle.cg_cell.specs.EvalCover.{cover_term};
ghost use Rattle.cg_aig.specs.Aig.{aig_ops};
ghost use Rattle.cg_aig.specs.declared.fault.AigFault.TheVariants.{NoMemory};
ghost use Rattle.cg_netlist.specs.Circuit.{LogicCell};
ghost use Rattle.cg_netlist.specs.Moment.{values_at};
ghost use Rattle.cg_netlist.specs.View.{function_seen};
ghost use Rattle.cg_netlist.specs.WellFormed.{IsOver};
ghost use Rattle.cg_machine.specs.Gates.{HasInputs, gate_cover};
ghost use Rattle.cg_claim.specs.Build.{aig_values, function_term, lay};
ghost use Rattle.cg_unroll.specs.Building.{Built, LaysCells, MayFail, table_of};

use crate::literals::Literals;
use cg_aig::{Aig, AigFault, AigLit};
use cg_cell::fit::FitKind;
use cg_machine::machine::Machine;
use cg_net::id::{CellId, NetId};
use cg_netlist::parts::Function;

/// Puts these cells into the list, one after another: the output of each gets the literal of its function. There is a
/// literal for each net; what the buffer holds does not matter.
pub(crate) fn lay_cells(
    machine: &Machine,
    cells: &[CellId],
    aig: &mut Aig,
    literals: &mut Literals,
    buffer: &mut Vec<AigLit>,
) -> Result<(), AigFault>
    requires cells { All (λ id. id < length machine.now.circuit.cells) cells.now }
    requires literals { length machine.now.circuit.names ≤ length literals.old }
    requires valid { AreValid aig_ops aig.old literals.old }
    ensures laid { OnOk result (LaysCells (values_at machine.now.circuit.cells cells.now) aig.old aig.new literals.old literals.new) }
    ensures failed { IfErr result
        (λ fault. MayFail (lay aig_values (values_at machine.now.circuit.cells cells.now) (table_of aig.old literals.old)).domain fault) }
{
    for k in 0..cells.len() {
        lay_cell(machine, cells[k], aig, literals, buffer)?;
    }
    Ok(())
}

/// Puts one cell into the list.
fn lay_cell(
    machine: &Machine,
    id: CellId,
    aig: &mut Aig,
    literals: &mut Literals,
    buffer: &mut Vec<AigLit>,
) -> Result<(), AigFault>
    requires cell { id < length machine.now.circuit.cells }
    requires literals { length machine.now.circuit.names ≤ length literals.old }
    requires valid { AreValid aig_ops aig.old literals.old }
    ensures laid { OnOk result ((cell : LogicCell ℕ) → slice_get machine.now.circuit.cells id ≡ Some cell
        → LaysCells (cell ∷ []) aig.old aig.new literals.old literals.new) }
    ensures failed { IfErr result (λ fault. (cell : LogicCell ℕ) → slice_get machine.now.circuit.cells id ≡ Some cell
        → MayFail (lay aig_values (cell ∷ []) (table_of aig.old literals.old)).domain fault) }
{
    let _netlist = machine.netlist();
    read_literals(machine.inputs_of(id), literals, buffer)?;
    let answer = build_cell(machine, id, aig, buffer)?;
    let output = machine.output_of(id);
    literals.put(output.number() as usize, answer)
}

/// Reads the literals of these nets into the buffer, in place of what it holds.
pub(crate) fn read_literals(
    nets: &[NetId],
    literals: &Literals,
    buffer: &mut Vec<AigLit>,
) -> Result<(), AigFault>
    requires { All (λ net. net < length literals.now) nets.now }
    ensures read { OnOk result (buffer.new.items ≡ map (λ net. slice_index_or literals.now net 0) nets.now) }
    ensures failed { IfErr result (λ fault. fault ≡ NoMemory) }
{
    buffer.clear();
    for k in 0..nets.len() {
        buffer.push(literals.get(nets[k].number() as usize))?;
    }
    Ok(())
}

/// The literal of a cell's function at literals of its inputs.
fn build_cell(
    machine: &Machine,
    id: CellId,
    aig: &mut Aig,
    inputs: &[AigLit],
) -> Result<AigLit, AigFault>
    requires cell { id < length machine.now.circuit.cells }
    requires long { (cell : LogicCell ℕ) → slice_get machine.now.circuit.cells id ≡ Some cell → length inputs.now ≡ length cell.inputs }
    requires valid { AreValid aig_ops aig.old inputs.now }
    ensures built { IfOk result (λ v. (cell : LogicCell ℕ) → slice_get machine.now.circuit.cells id ≡ Some cell
        → Built aig.old aig.new v (build_term aig_ops inputs.now (function_term cell.function) aig.old)) }
    ensures failed { IfErr result (λ fault. (cell : LogicCell ℕ) → slice_get machine.now.circuit.cells id ≡ Some cell
        → MayFail (build_term aig_ops inputs.now (function_term cell.function) aig.old).domain fault) }
{
    let netlist = machine.netlist();
    let own = netlist.cells();
    if id.number() < own {
        build_function(netlist.cell(id).function, aig, inputs)
    } else {
        build_gate(machine.gate(id.number() - own).kind, aig, inputs)
    }
}

/// The literal of a logic cell's function at literals of its inputs.
fn build_function(
    function: Function<'_>,
    aig: &mut Aig,
    inputs: &[AigLit],
) -> Result<AigLit, AigFault>
    requires over { IsOver (length inputs.now) (function_seen function) }
    requires valid { AreValid aig_ops aig.old inputs.now }
    ensures built { IfOk result (λ v. Built aig.old aig.new v
        (build_term aig_ops inputs.now (function_term (function_seen function.entry)) aig.old)) }
    ensures failed { IfErr result (λ fault. MayFail
        (build_term aig_ops inputs.now (function_term (function_seen function.entry)) aig.old).domain fault) }
{
    match function {
        Function::Cover(cover) => aig.cover(cover, inputs),
        Function::Cell(cell) => match cell.function() {
            Some(function) => aig.expression(function, inputs),
            None => Ok(aig.constant(false)),
        },
    }
}

/// The literal of an added gate at literals of its inputs: their `not`, `and` or `or`.
fn build_gate(kind: FitKind, aig: &mut Aig, inputs: &[AigLit]) -> Result<AigLit, AigFault>
    requires fits { HasInputs kind (length inputs.now) }
    requires valid { AreValid aig_ops aig.old inputs.now }
    ensures built { IfOk result (λ v. Built aig.old aig.new v (build_term aig_ops inputs.now (cover_term (gate_cover kind)) aig.old)) }
    ensures failed { IfErr result (λ fault. MayFail (build_term aig_ops inputs.now (cover_term (gate_cover kind)) aig.old).domain fault) }
{
    match kind {
        FitKind::Inv => {
            let _leaves = aig.leaves();
            Ok(inputs[0].not())
        }
        FitKind::And2 => aig.and(inputs[0], inputs[1]),
        FitKind::Or2 => aig.or(inputs[0], inputs[1]),
        FitKind::Gater => Ok(aig.constant(false)),
        FitKind::TestGater => Ok(aig.constant(false)),
    }
}
