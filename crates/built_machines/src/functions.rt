//! The functions of logic cells at bits of their inputs.

ghost use Rattle.std.specs.Prelude.{◌≡◌, ◌<◌, length};
ghost use Rattle.cg_netlist.specs.View.{function_seen};
ghost use Rattle.cg_netlist.specs.WellFormed.{IsOver};

use crate::bits::bits_in;
use crate::nets::net_named;
use cg_machine::machine::Machine;
use cg_net::id::NetId;
use cg_netlist::driver::Driver;
use cg_netlist::netlist::Netlist;
use cg_netlist::parts::Function;
use std::alloc::Global;

/// The bit of the function of the logic cell of the netlist that drives the net of this name, at bits of the cell's inputs.
pub fn value_text(alloc: Global, machine: &Machine, net: &str, bits: &str) -> Result<Vec<u8>, ()> {
    let net = net_named(machine, net)?;
    let bits = bits_in(alloc, bits)?;
    let netlist = machine.netlist();
    if net.number() < netlist.nets() {
        value_at(alloc, netlist, net, bits.as_slice())
    } else {
        Err(())
    }
}

/// The bit of the function of the logic cell that drives a net, as a line.
fn value_at(alloc: Global, netlist: &Netlist, net: NetId, bits: &[bool]) -> Result<Vec<u8>, ()>
    requires { net < length netlist.now.names }
{
    let _nets = netlist.nets();
    match netlist.driver(net) {
        Driver::Cell(id) => {
            let cell = netlist.cell(id);
            if bits.len() != cell.inputs.len() {
                return Err(());
            }
            line_of(alloc, value(cell.function, bits))
        }
        _ => Err(()),
    }
}

/// The bit of a function at bits of its inputs.
fn value(function: Function<'_>, bits: &[bool]) -> bool
    requires { IsOver (length bits.now) (function_seen function) }
{
    match function {
        Function::Cover(cover) => cover.eval_bits(bits),
        Function::Cell(cell) => match cell.function() {
            Some(function) => function.eval_bits(bits),
            None => false,
        },
    }
}

/// A bit as a line.
fn line_of(alloc: Global, bit: bool) -> Result<Vec<u8>, ()> {
    let line: &[u8] = if bit { b"1\n" } else { b"0\n" };
    Vec::from_slice(alloc, line).map_err(|_| ())
}
