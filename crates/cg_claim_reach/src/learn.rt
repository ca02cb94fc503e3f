//! The readers of the nets of a machine, noted one part after another.

ghost use Rattle.std.specs.Prelude.{◌≡◌, ◌<◌, ◌≤◌, ◌||◌, ◌&&◌, ℕ, true, Some, nat_eq, length, slice_get, OnOk};
ghost use Rattle.std.specs.Option.{option_to_list};
ghost use Rattle.cg_claim.specs.Reach.{inputs_of_register, next_nets};
ghost use Rattle.cg_machine.specs.Machine.{enable_of};
ghost use Rattle.cg_netlist.specs.Circuit.{LogicCell};
ghost use Rattle.cg_net.specs.NetSets.{is_in};
ghost use Rattle.cg_claim_reach.specs.Fanout.{readers_at};
ghost use Rattle.cg_claim_reach.specs.inner.Learning.{Keeps};

use crate::readers::Readers;
use cg_machine::machine::Machine;
use cg_net::id::{CellId, NetId, RegId};
use std::alloc::AllocError;

/// Notes what the cells of a machine read, from this one on.
pub(crate) fn learn_cells(
    machine: &Machine,
    first: u32,
    readers: &mut Readers,
) -> Result<(), AllocError>
    ensures kept { OnOk result (Keeps readers.old readers.new) }
    ensures noted { OnOk result ((k : ℕ) (cell : LogicCell ℕ) (y : ℕ) → first ≤ k → slice_get machine.now.circuit.cells k ≡ Some cell
        → is_in cell.inputs y ≡ true → is_in (readers_at readers.new y) k ≡ true) }
{
    for number in first..machine.cells() {
        readers.note_all(machine.inputs_of(CellId::new(number)), number)?;
    }
    Ok(())
}

/// Notes where the outputs of a machine stand, from this one on.
pub(crate) fn learn_outputs(
    machine: &Machine,
    first: u32,
    readers: &mut Readers,
) -> Result<(), AllocError>
    ensures kept { OnOk result (Keeps readers.old readers.new) }
    ensures noted { OnOk result ((k y : ℕ) → first ≤ k → slice_get machine.now.circuit.outputs k ≡ Some y → is_in (readers_at readers.new y) k ≡ true) }
{
    let netlist = machine.netlist();
    let outputs = netlist.outputs();
    for k in first as usize..outputs.len() {
        readers.note(outputs[k], k as u32)?;
    }
    Ok(())
}

/// Notes what the registers of a machine read, from this one on.
pub(crate) fn learn_registers(
    machine: &Machine,
    first: u32,
    readers: &mut Readers,
) -> Result<(), AllocError>
    ensures kept { OnOk result (Keeps readers.old readers.new) }
    ensures noted { OnOk result ((r y : ℕ) → first ≤ r → r < length machine.now.circuit.registers → is_in (next_nets machine.now r) y ≡ true
        → is_in (readers_at readers.new y) r ≡ true) }
{
    for number in first..machine.registers() {
        learn_register(machine, RegId::new(number), readers)?;
    }
    Ok(())
}

/// Notes what a register reads: its inputs, and its enable.
fn learn_register(machine: &Machine, reg: RegId, readers: &mut Readers) -> Result<(), AllocError>
    requires { reg < length machine.now.circuit.registers }
    ensures kept { OnOk result (Keeps readers.old readers.new) }
    ensures noted { OnOk result ((y : ℕ) → is_in (next_nets machine.now reg) y ≡ true → is_in (readers_at readers.new y) reg ≡ true) }
{
    learn_inputs(machine, reg, readers)?;
    learn_enable(machine, reg, readers)
}

/// Notes the inputs of a register.
fn learn_inputs(machine: &Machine, reg: RegId, readers: &mut Readers) -> Result<(), AllocError>
    requires { reg < length machine.now.circuit.registers }
    ensures { OnOk result ((y k : ℕ) → is_in (readers_at readers.new y) k ≡ (is_in (readers_at readers.old y) k || (is_in (inputs_of_register machine.now reg) y && nat_eq k reg))) }
{
    let netlist = machine.netlist();
    if machine.is_delay(reg) {
        let (net, _) = machine.delay(reg);
        readers.note_all(&[net], reg.number())
    } else {
        readers.note_all(netlist.register(reg).inputs, reg.number())
    }
}

/// Notes the enable of a register, where it has one.
fn learn_enable(machine: &Machine, reg: RegId, readers: &mut Readers) -> Result<(), AllocError>
    requires { reg < length machine.now.circuit.registers }
    ensures { OnOk result ((y k : ℕ) → is_in (readers_at readers.new y) k ≡ (is_in (readers_at readers.old y) k || (is_in (option_to_list (enable_of machine.now reg)) y && nat_eq k reg))) }
{
    match machine.enable(reg) {
        Some(enable) => readers.note_all(&[enable], reg.number()),
        None => Ok(()),
    }
}

/// Notes that these registers read a net.
pub(crate) fn learn_net(net: NetId, regs: &[RegId], readers: &mut Readers) -> Result<(), AllocError>
    ensures { OnOk result ((y k : ℕ) → is_in (readers_at readers.new y) k ≡ (is_in (readers_at readers.old y) k || (nat_eq y net && is_in regs.now k))) }
{
    for reg in regs {
        readers.note(net, reg.number())?;
    }
    Ok(())
}
