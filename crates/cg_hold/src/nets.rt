//! The words of a machine's nets in 64 cycles, from words of its registers and random words of its inputs.

ghost use Rattle.std.specs.Prelude.{◌≡◌, ◌<◌, ◌≤◌, ◌∷◌, [], ℕ, IfOk, Some, length, slice_get};
ghost use Rattle.cg_hold.specs.inner.Laying.{IsStart, Lays, StartsAt};
ghost use Rattle.cg_word.specs.Words.{IsWord, lane};
ghost use Rattle.cg_machine.specs.Machine.{walk_of};
ghost use Rattle.cg_netlist.specs.Circuit.{LogicCell};
ghost use Rattle.cg_netlist.specs.Moment.{function_value};
ghost use Rattle.cg_netlist.specs.Netlist.{widest_of};

use crate::words::gate_word;
use cg_machine::machine::Machine;
use cg_net::id::{CellId, NetId};
use cg_netlist::driver::Driver;
use cg_netlist::walk::{gather, put};
use cg_word::words::{function_word, inverse};
use cg_xorshift::Random;
use std::alloc::{AllocError, Global};

/// The words of the nets before cells are laid: random ones at data inputs, and at the outputs of registers what they
/// show.
pub(crate) fn start_words(
    alloc: Global,
    machine: &Machine,
    state: &[u64],
    random: &mut Random,
) -> Result<Vec<u64>, AllocError>
    requires state { length state.now ≡ length machine.now.circuit.registers }
    ensures { IfOk result (λ words. IsStart machine.now state.now words.items) }
{
    let mut words = Vec::new(alloc);
    for k in 0..machine.nets() {
        words.push(start_word(machine, state, NetId::new(k), random.next()))?;
    }
    Ok(words)
}

/// The word of a net before cells are laid.
pub(crate) fn start_word(machine: &Machine, state: &[u64], net: NetId, input: u64) -> u64
    requires state { length state.now ≡ length machine.now.circuit.registers }
    requires net { net < length machine.now.circuit.names }
    ensures { StartsAt machine.now state.now net result }
{
    let _netlist = machine.netlist();
    match machine.driver(net) {
        Driver::Input => input,
        Driver::Register(reg, inverted) => {
            let word = state[reg.number() as usize];
            if inverted { inverse(word) } else { word }
        }
        Driver::Clock | Driver::Cell(_) | Driver::Gater(_) => 0,
    }
}

/// Lays the cells of a machine and its added gates, one after another: the output of each gets the word of its function.
/// `scratch` has at least `widest` places, whose contents do not matter.
pub(crate) fn lay_cells(machine: &Machine, words: &mut [u64], scratch: &mut [u64])
    requires words { length words.old ≡ length machine.now.circuit.names }
    requires scratch { widest_of machine.now.circuit.cells ≤ length scratch.old }
    ensures { Lays (walk_of machine.now) words.old words.new }
{
    let cells = machine.netlist().order().len() as u32 + machine.gates();
    for place in 0..cells {
        lay_cell(machine, machine.cell_at(place), words, scratch);
    }
}

/// Lays one cell.
pub(crate) fn lay_cell(machine: &Machine, id: CellId, words: &mut [u64], scratch: &mut [u64])
    requires cell { id < length machine.now.circuit.cells }
    requires words { length words.old ≡ length machine.now.circuit.names }
    requires scratch { widest_of machine.now.circuit.cells ≤ length scratch.old }
    ensures { (cell : LogicCell ℕ) → slice_get machine.now.circuit.cells id ≡ Some cell → Lays (cell ∷ []) words.old words.new }
{
    let _netlist = machine.netlist();
    let inputs = machine.inputs_of(id);
    gather(words, inputs, scratch);
    let word = output_word(machine, id, &scratch[..inputs.len()]);
    put(words, machine.output_of(id), word);
}

/// The word of a cell's function at words of its inputs.
fn output_word(machine: &Machine, id: CellId, inputs: &[u64]) -> u64
    requires cell { id < length machine.now.circuit.cells }
    requires long { (cell : LogicCell ℕ) → slice_get machine.now.circuit.cells id ≡ Some cell
        → length inputs.now ≡ length cell.inputs }
    ensures { (cell : LogicCell ℕ) → slice_get machine.now.circuit.cells id ≡ Some cell
        → IsWord result (λ i. function_value cell.function (lane i inputs.now)) }
{
    let netlist = machine.netlist();
    let own = netlist.cells();
    if id.number() < own {
        function_word(netlist.cell(id).function, inputs)
    } else {
        gate_word(machine.gate(id.number() - own).kind, inputs)
    }
}
