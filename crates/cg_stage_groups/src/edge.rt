//! What drives the nets of a cone from outside.

ghost use Rattle.std.specs.Prelude.{◌≡◌, ◌||◌, ℕ, length, IfOk, OnOk};
ghost use Rattle.cg_net.specs.NetSets.{is_in};
ghost use Rattle.cg_stage_groups.specs.inner.Edge.{IsEdge, is_input, is_register};
ghost use Rattle.cg_stage_groups.specs.inner.Reaching.{AreOwn};

use crate::support::Support;
use cg_list::Seq;
use cg_machine::machine::Machine;
use cg_net::net_set::NetSet;
use cg_netlist::driver::Driver;
use std::alloc::{AllocError, Global};

/// Whether a data input is among these nets of a machine's netlist, and the registers that show their bits at one.
pub(crate) fn edge(alloc: Global, machine: &Machine, nets: &NetSet) -> Result<Support, AllocError>
    requires { AreOwn machine.now nets.now }
    ensures { IfOk result (IsEdge machine.now nets.now) }
{
    let netlist = machine.netlist();
    let mut support = Support {
        has_input: false,
        registers: Seq::new(alloc),
    };
    for place in 0..nets.len() {
        let net = nets.net(place);
        note(netlist.driver(net), &mut support)?;
    }
    Ok(support)
}

/// Notes what drives a net, where it is a data input or a register.
fn note(driver: Driver, support: &mut Support) -> Result<(), AllocError>
    ensures input { OnOk result (support.new.has_input ≡ (support.old.has_input || is_input driver)) }
    ensures registers { OnOk result ((k : ℕ) → is_in support.new.registers k ≡ (is_in support.old.registers k || is_register driver k)) }
{
    match driver {
        Driver::Input => support.has_input = true,
        Driver::Register(reg, _) => support.registers.push(reg)?,
        _ => {}
    }
    Ok(())
}
