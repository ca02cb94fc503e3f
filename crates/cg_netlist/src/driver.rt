//! What drives each net.

ghost use Rattle.std.specs.Prelude.{◌≡◌, ◌<◌, ◌+◌, ◌++◌, IfOk, Some, length, replicate, drop};
ghost use Rattle.std.specs.List.{flat_map};
ghost use Rattle.cg_netlist.specs.Circuit.{shown_nets};
ghost use Rattle.cg_netlist.specs.Drivers.{AreDrivers};
ghost use Rattle.cg_netlist.specs.Netlist.{IsNetlist};
ghost use Rattle.cg_netlist.specs.inner.Driving.{IsTold, all_but_inputs, behind_cells, behind_gaters, behind_registers};

use crate::parts::Parts;
use cg_net::id::{CellId, GateClockId, RegId};
use std::alloc::{AllocError, Global};

/// What drives a net.
#[derive(Clone, Copy, Debug)]
pub enum Driver {
    /// The net is a data input.
    Input,

    /// The net is the clock.
    Clock,

    /// A logic cell.
    Cell(CellId),

    /// A gating cell.
    Gater(GateClockId),

    /// A register; true where the net shows the inverse of its bit.
    Register(RegId, bool),
}

/// What drives each net.
pub(crate) fn drivers(alloc: Global, parts: &Parts) -> Result<Vec<Driver>, AllocError>
    requires { IsNetlist parts.now }
    ensures { IfOk result (λ drivers. AreDrivers parts.now drivers.items) }
{
    let mut drivers = all_inputs(alloc, parts.names.len())?;
    tell_cells(parts, &mut drivers);
    tell_gaters(parts, &mut drivers);
    tell_registers(parts, &mut drivers);
    tell_clock(parts, &mut drivers);
    Ok(drivers)
}

/// A data input at each of `count` nets.
fn all_inputs(alloc: Global, count: usize) -> Result<Vec<Driver>, AllocError>
    ensures { IfOk result (λ drivers. drivers.items ≡ replicate count Driver.Input) }
{
    vec![in alloc; Driver::Input; count]
}

/// Tells the outputs of logic cells.
fn tell_cells(parts: &Parts, drivers: &mut [Driver])
    requires netlist { IsNetlist parts.now }
    requires told { IsTold parts.now (all_but_inputs parts.now) drivers.old }
    ensures { IsTold parts.now (behind_cells parts.now) drivers.new }
{
    for k in 0..parts.cells.len() {
        let net = parts.cells[k].output.number() as usize;
        drivers[net] = Driver::Cell(CellId::new(k as u32));
    }
}

/// Tells the outputs of gating cells.
fn tell_gaters(parts: &Parts, drivers: &mut [Driver])
    requires netlist { IsNetlist parts.now }
    requires told { IsTold parts.now (behind_cells parts.now) drivers.old }
    ensures { IsTold parts.now (behind_gaters parts.now) drivers.new }
{
    for k in 0..parts.gaters.len() {
        let net = parts.gaters[k].output.number() as usize;
        drivers[net] = Driver::Gater(GateClockId::new(k as u32));
    }
}

/// Tells the outputs of registers.
fn tell_registers(parts: &Parts, drivers: &mut [Driver])
    requires netlist { IsNetlist parts.now }
    requires told { IsTold parts.now (behind_gaters parts.now) drivers.old }
    ensures { IsTold parts.now (behind_registers parts.now) drivers.new }
{
    for r in 0..parts.registers.len() {
        tell_register(parts, r, drivers);
    }
}

/// Tells the outputs of one register.
fn tell_register(parts: &Parts, r: usize, drivers: &mut [Driver])
    requires netlist { IsNetlist parts.now }
    requires register { r < length parts.now.registers }
    requires told { IsTold parts.now (flat_map shown_nets (drop r parts.now.registers) ++ behind_registers parts.now) drivers.old }
    ensures { IsTold parts.now (flat_map shown_nets (drop (r + 1) parts.now.registers) ++ behind_registers parts.now) drivers.new }
{
    let register = &parts.registers[r];
    let outputs = register.outputs.as_slice();
    for place in 0..outputs.len() {
        let output = outputs[place];
        drivers[output.0.number() as usize] = Driver::Register(RegId::new(r as u32), output.1);
    }
}

/// Tells the clock.
fn tell_clock(parts: &Parts, drivers: &mut [Driver])
    requires netlist { IsNetlist parts.now }
    requires told { IsTold parts.now (behind_registers parts.now) drivers.old }
    ensures { AreDrivers parts.now drivers.new }
{
    if let Some(clock) = parts.clock {
        drivers[clock.number() as usize] = Driver::Clock;
    }
}
