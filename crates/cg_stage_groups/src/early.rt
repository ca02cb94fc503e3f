//! What the front part of a cone shows of the support of a register.

ghost use Rattle.std.specs.Prelude.{◌≡◌, ◌<◌, ◌+◌, ℕ, [], true, length, nat_eq, IfOk, OnOk};
ghost use Rattle.std.specs.List.{IsDistinct};
ghost use Rattle.cg_machine.specs.Added.{own_netlist};
ghost use Rattle.cg_machine.specs.Machine.{MachineData};
ghost use Rattle.cg_net.specs.NetSets.{is_in};
ghost use Rattle.cg_stage_groups.specs.Support.{StandsOnMore, stands_on_free};
ghost use Rattle.cg_stage_groups.specs.inner.Met.{AreMet, IsFreeAt, IsThere, is_free};
ghost use Rattle.cg_stage_list_laws.specs.Supports.{input_cone};

use crate::front::Front;
use cg_machine::machine::Machine;
use cg_net::id::{NetId, RegId};
use cg_netlist::driver::Driver;
use indexmap::IndexSet;
use std::alloc::{AllocError, Global};

/// Whether the walk back from a register's inputs comes to a data input, or to another register without an enable. It ends at
/// the first.
pub(crate) fn meets_free(
    machine: &Machine,
    reg: RegId,
    front: &mut Front,
) -> Result<bool, AllocError>
    requires empty { front.old.found ≡ [] }
    requires register { reg < machine.now.own_registers }
    ensures { IfOk result (λ free. free ≡ true → stands_on_free machine.now reg ≡ true) }
{
    let netlist = machine.netlist();
    let _registers = netlist.registers();
    let inputs = netlist.register(reg).inputs;
    front.begin(machine, inputs)?;
    for _ in 0..netlist.nets() {
        match front.next(machine)? {
            Some(net) => {
                if is_free_at(machine, reg, net) {
                    return Ok(true);
                }
            }
            None => return Ok(false),
        }
    }
    Ok(false)
}

/// Whether a data input, or another register without an enable, drives a net.
fn is_free_at(machine: &Machine, reg: RegId, net: NetId) -> bool
    requires { net < length (own_netlist machine.now).names }
    ensures { result ≡ true → IsFreeAt machine.now reg net }
{
    is_free(machine, reg, machine.netlist().driver(net))
}

/// Whether this is a data input, or another register without an enable.
fn is_free(machine: &Machine, reg: RegId, driver: Driver) -> bool
    requires { IsThere machine.now driver }
    ensures { result ≡ is_free machine.now reg driver }
{
    match driver {
        Driver::Input => true,
        Driver::Register(other, _) => {
            other.number() != reg.number() && machine.enable(other).is_none()
        }
        _ => false,
    }
}

/// Whether the walk back from a register's inputs comes to so many data inputs and registers that with the register they are
/// more than `most`. It ends at the first one more.
pub(crate) fn meets_more(
    machine: &Machine,
    reg: RegId,
    most: u32,
    front: &mut Front,
    met: &mut Met,
) -> Result<bool, AllocError>
    requires empty { front.old.found ≡ [] }
    requires register { reg < machine.now.own_registers }
    ensures { IfOk result (λ more. more ≡ true → StandsOnMore machine.now reg most) }
{
    let netlist = machine.netlist();
    let _registers = netlist.registers();
    let inputs = netlist.register(reg).inputs;
    met.begin(reg)?;
    front.begin(machine, inputs)?;
    for _ in 0..netlist.nets() {
        match front.next(machine)? {
            Some(net) => {
                met.note(machine, net)?;
                if met.count() > most as usize {
                    return Ok(true);
                }
            }
            None => return Ok(false),
        }
    }
    Ok(false)
}

/// The data inputs and the registers that a walk back has met, by their numbers.
#[derive(Drop)]
pub(crate) struct Met {
    inputs: IndexSet<u32>,
    registers: IndexSet<u32>,
}

impl Met {
    /// None yet; takes no memory.
    pub(crate) fn new(alloc: Global) -> Met {
        Met {
            inputs: IndexSet::new(alloc),
            registers: IndexSet::new(alloc),
        }
    }

    /// Begins with a register alone.
    fn begin(&mut self, reg: RegId) -> Result<(), AllocError>
        ensures { OnOk result ((m : MachineData) → AreMet m reg self.new.inputs.keys self.new.registers.keys) }
    {
        self.inputs.clear();
        self.registers.clear();
        self.registers.insert(reg.number())?;
        Ok(())
    }

    /// Notes a data input or a register that drives a net.
    fn note(&mut self, machine: &Machine, net: NetId) -> Result<(), AllocError>
        requires { net < length (own_netlist machine.now).names }
        ensures { OnOk result ((r : ℕ) → r < length machine.now.circuit.registers → is_in (input_cone machine.now r) net ≡ true
            → AreMet machine.now r self.old.inputs.keys self.old.registers.keys
            → AreMet machine.now r self.new.inputs.keys self.new.registers.keys) }
    {
        match machine.netlist().driver(net) {
            Driver::Input => {
                self.inputs.insert(net.number())?;
            }
            Driver::Register(reg, _) => {
                self.registers.insert(reg.number())?;
            }
            _ => {}
        }
        Ok(())
    }

    /// How many there are.
    fn count(&self) -> usize
        ensures count { result ≡ length self.now.inputs.keys + length self.now.registers.keys }
        ensures inputs { IsDistinct nat_eq self.now.inputs.keys }
        ensures registers { IsDistinct nat_eq self.now.registers.keys }
    {
        self.inputs.len() + self.registers.len()
    }
}
