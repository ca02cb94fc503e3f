//! The nets of a machine, by their names.

ghost use Rattle.std.specs.Prelude.{◌≡◌, ◌≢◌, ◌<◌, Some, IfOk, length, true};
ghost use Rattle.cg_machine.specs.Machine.{IsNet};

use cg_machine::machine::Machine;
use cg_net::id::{NetId, RegId};
use cg_netlist::driver::Driver;

/// The net of a machine that has this name, where it is not the clock. That of an added net is the prefix and its place.
pub fn net_named(machine: &Machine, name: &str) -> Result<NetId, ()>
    ensures { IfOk result (λ net. IsNet machine.now net) }
{
    match machine.netlist().find(name.as_bytes()) {
        Some(net) => not_clock(machine, net),
        None => {
            let place = name.strip_prefix("cg_").ok_or(())?;
            let place = place.parse::<u32>().map_err(|_| ())?;
            let number = machine.netlist().nets().checked_add(place).ok_or(())?;
            not_clock(machine, NetId::new(number))
        }
    }
}

/// The register of a machine that has the net of this name as an output.
pub fn register_named(machine: &Machine, name: &str) -> Result<RegId, ()>
    ensures { IfOk result (λ register. register < length machine.now.circuit.registers) }
{
    let net = net_named(machine, name)?;
    match machine.driver(net) {
        Driver::Register(register, _) => Ok(register),
        _ => Err(()),
    }
}

/// A net, where it is one of the machine's and not the clock.
fn not_clock(machine: &Machine, net: NetId) -> Result<NetId, ()>
    ensures { IfOk result (λ net. IsNet machine.now net) }
{
    if net.number() < machine.nets() && is_apart(machine.netlist().clock(), net) {
        Ok(net)
    } else {
        Err(())
    }
}

/// Whether a net is not the clock.
fn is_apart(clock: Option<NetId>, net: NetId) -> bool
    ensures { result ≡ true → clock ≢ Some net }
{
    match clock {
        Some(clock) => clock.number() != net.number(),
        None => true,
    }
}
