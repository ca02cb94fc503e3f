//! The readers of the nets of a machine that grows.

ghost use Rattle.std.specs.Prelude.{OnOk};
ghost use Rattle.cg_machine.specs.Machine.{MachineData};
ghost use Rattle.cg_claim_reach.specs.Fanout.{Grows, Knows};
ghost use Rattle.cg_claim_reach.specs.inner.Learning.{KnowsAll};

use crate::learn::{learn_cells, learn_net, learn_outputs, learn_registers};
use crate::readers::Readers;
use cg_machine::machine::Machine;
use cg_net::id::{NetId, RegId};
use std::alloc::{AllocError, Global};

/// The readers of each net, and how many parts of the machine they were noted of: the first ones, since a machine grows
/// behind them.
#[derive(Drop)]
pub(crate) struct Tables {
    /// The logic cells and added gates that read a net.
    pub(crate) cells: Readers,

    /// The outputs that stand at it.
    pub(crate) outputs: Readers,

    /// The registers that read it, as an input or as their enable.
    pub(crate) registers: Readers,

    cell_count: u32,
    output_count: u32,
    register_count: u32,
}

impl Tables {
    /// Of no machine yet; takes no memory.
    pub(crate) fn new(alloc: Global) -> Tables
        ensures { (m : MachineData) → Knows m result }
    {
        Tables {
            cells: Readers::new(alloc),
            outputs: Readers::new(alloc),
            registers: Readers::new(alloc),
            cell_count: 0,
            output_count: 0,
            register_count: 0,
        }
    }

    /// Notes what was added to the machine.
    pub(crate) fn learn(&mut self, machine: &Machine) -> Result<(), AllocError>
        requires { Knows machine.now self.old }
        ensures { OnOk result (KnowsAll machine.now self.new) }
    {
        let netlist = machine.netlist();
        learn_cells(machine, self.cell_count, &mut self.cells)?;
        learn_outputs(machine, self.output_count, &mut self.outputs)?;
        learn_registers(machine, self.register_count, &mut self.registers)?;
        self.cell_count = machine.cells();
        self.output_count = netlist.outputs().len() as u32;
        self.register_count = machine.registers();
        Ok(())
    }

    /// Notes that these registers may get a net as their enable.
    pub(crate) fn note_enable(&mut self, net: NetId, regs: &[RegId]) -> Result<(), AllocError>
        ensures { OnOk result ((m n : MachineData) → Knows m self.old → Grows m n regs.now net → Knows n self.new) }
    {
        // The first search looks at all registers anyway, with the enables that they have then.
        if self.register_count == 0 {
            return Ok(());
        }
        learn_net(net, regs, &mut self.registers)
    }
}
