//! Steps that are played on a machine.

ghost use Rattle.cg_machine.specs.Extends.{GateFits};
ghost use Rattle.cg_machine.specs.Gates.{HasInputs};
ghost use Rattle.cg_machine.specs.Machine.{IsNet};

use crate::nets::net_named;
use cg_cell::fit::FitKind;
use cg_machine::machine::Machine;
use cg_net::id::NetId;
use cg_netlist::driver::Driver;

/// Plays the step that these words say, and answers the net that it adds, or finds again, if it adds one.
pub fn step(machine: &mut Machine, words: &[&str]) -> Result<Option<NetId>, ()> {
    match words {
        ["inv", net] => {
            let net = net_named(machine, net)?;
            Ok(Some(add_gate(machine, FitKind::Inv, &[net])?))
        }
        ["and2", first, second] => Ok(Some(add_pair(machine, FitKind::And2, first, second)?)),
        ["or2", first, second] => Ok(Some(add_pair(machine, FitKind::Or2, first, second)?)),
        ["delay", net] => {
            let net = net_named(machine, net)?;
            Ok(Some(add_delay(machine, net)?))
        }
        ["enable", register, net] => {
            let net = net_named(machine, net)?;
            enable(machine, register, net)?;
            Ok(None)
        }
        _ => Err(()),
    }
}

/// Adds a gate.
fn add_gate(machine: &mut Machine, kind: FitKind, inputs: &[NetId]) -> Result<NetId, ()>
    requires { GateFits machine.old kind inputs.now }
{
    machine.add_gate(kind, inputs).map_err(|_| ())
}

/// Adds a gate of two inputs.
fn add_pair(machine: &mut Machine, kind: FitKind, first: &str, second: &str) -> Result<NetId, ()>
    requires { HasInputs kind 2 }
{
    let first = net_named(machine, first)?;
    let second = net_named(machine, second)?;
    add_gate(machine, kind, &[first, second])
}

/// Adds a delay register.
fn add_delay(machine: &mut Machine, net: NetId) -> Result<NetId, ()>
    requires { IsNet machine.old net }
{
    if machine.netlist().clock().is_none() {
        return Err(());
    }
    machine.add_delay(net).map_err(|_| ())
}

/// Gives the register of the netlist that has this output an enable.
fn enable(machine: &mut Machine, output: &str, net: NetId) -> Result<(), ()>
    requires { IsNet machine.old net }
{
    let output = net_named(machine, output)?;
    match machine.driver(output) {
        Driver::Register(register, _) if !machine.is_delay(register) => {
            machine.set_enable(register, net);
            Ok(())
        }
        _ => Err(()),
    }
}
