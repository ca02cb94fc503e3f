//! In which cycles registers take another bit, as words.

ghost use Rattle.std.specs.Prelude.{◌≡◌, ◌<◌, ◌≤◌, ◌+◌, ◌++◌, ◌∷◌, [], ℕ, IfOk, Some, count_by, if◌then◌else◌, length, slice_get};
ghost use Rattle.std.specs.List.{All};
ghost use Rattle.cg_cell.specs.Pins.{is_data};
ghost use Rattle.cg_cell.specs.declared.cell.CellKind.TheVariants.{Flop};
ghost use Rattle.cg_hold.specs.inner.Laying.{AreMoves};
ghost use Rattle.cg_word.specs.Words.{IsWord, lane, lane_bit};
ghost use Rattle.cg_machine.specs.Machine.{next};
ghost use Rattle.cg_netlist.specs.Circuit.{RegisterCell};
ghost use Rattle.cg_netlist.specs.History.{next_value};
ghost use Rattle.cg_netlist.specs.Moment.{cell_value, values_at};

use cg_cell::cell::CellType;
use cg_machine::machine::Machine;
use cg_net::id::{NetId, RegId};
use cg_netlist::netlist::Netlist;
use cg_netlist::parts::RegKind;
use cg_netlist::walk::gather;
use cg_word::words::{cell_word, inverse};
use std::alloc::{AllocError, Global};

/// The words that a register's function reads at most: those of its inputs and its own. A cell of a library has at most
/// 16 pins.
const MOST_READ: usize = 17;

/// For each register the cycles in which it takes another bit.
pub(crate) fn move_words(
    alloc: Global,
    machine: &Machine,
    state: &[u64],
    nets: &[u64],
) -> Result<Vec<u64>, AllocError>
    requires state { length state.now ≡ length machine.now.circuit.registers }
    requires nets { length nets.now ≡ length machine.now.circuit.names }
    ensures { IfOk result (λ moves. AreMoves machine.now state.now nets.now moves.items) }
{
    let mut moves = Vec::new(alloc);
    for k in 0..machine.registers() {
        let next = next_word(machine, RegId::new(k), state, nets);
        moves.push(next ^ state[k as usize])?;
    }
    Ok(moves)
}

/// The word of a register's next bits.
pub(crate) fn next_word(machine: &Machine, reg: RegId, state: &[u64], nets: &[u64]) -> u64
    requires register { reg < length machine.now.circuit.registers }
    requires state { length state.now ≡ length machine.now.circuit.registers }
    requires nets { length nets.now ≡ length machine.now.circuit.names }
    ensures { IsWord result (λ i. next machine.now (lane i nets.now) (lane i state.now) reg) }
{
    let netlist = machine.netlist();
    if machine.is_delay(reg) {
        let (net, _) = machine.delay(reg);
        return nets[net.number() as usize];
    }
    let own = state[reg.number() as usize];
    let data = data_word(netlist, reg, own, nets);
    match machine.enable(reg) {
        Some(enable) => select(nets[enable.number() as usize], data, own),
        None => data,
    }
}

/// The first word where the test is 1, and else the second.
fn select(test: u64, first: u64, second: u64) -> u64
    ensures { IsWord result (λ i. if lane_bit i test then lane_bit i first else lane_bit i second) }
{
    (test & first) | (inverse(test) & second)
}

/// The word of a register's function.
fn data_word(netlist: &Netlist, reg: RegId, own: u64, nets: &[u64]) -> u64
    requires register { reg < length netlist.now.registers }
    requires nets { length netlist.now.names ≤ length nets.now }
    ensures { (register : RegisterCell ℕ ℕ) → slice_get netlist.now.registers reg ≡ Some register
        → IsWord result (λ i. next_value register.kind (values_at (lane i nets.now) register.inputs) (lane_bit i own)) }
{
    let _nets = netlist.nets();
    let register = netlist.register(reg);
    match register.kind {
        RegKind::Plain => nets[register.inputs[0].number() as usize],
        RegKind::Cell(cell) => flop_word(cell, register.inputs, own, nets),
    }
}

/// The word of the function of a register's cell.
fn flop_word(cell: &CellType, inputs: &[NetId], own: u64, nets: &[u64]) -> u64
    requires nets { All (λ net. net < length nets.now) inputs.now }
    requires kind { cell.now.kind ≡ Flop }
    requires fits { count_by is_data cell.now.pins ≡ length inputs.now }
    ensures { IsWord result (λ i. cell_value cell.now (values_at (lane i nets.now) inputs.now ++ lane_bit i own ∷ [])) }
{
    let _function = cell.function();
    let mut words = [0; MOST_READ];
    gather(nets, inputs, &mut words);
    words[inputs.len()] = own;
    cell_word(cell, &words[..inputs.len() + 1])
}
