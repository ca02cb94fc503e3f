//! Why a netlist has no text.

ghost use Rattle.std.specs.Prelude.{◌≡◌, ◌<◌, ◌++◌, ◌∷◌, [], ℕ, Some, length, map, slice_get};
ghost use Rattle.std.specs.List.{flat_map};
ghost use Rattle.cg_net.specs.Names.{net_name};
ghost use Rattle.cg_netlist.specs.Circuit.{GatingCell, LogicCell, RegisterCell};
ghost use Rattle.cg_netlist.specs.Netlist.{IsNetlist};
ghost use Rattle.cg_netlist.specs.View.{cell_seen, register_seen};
ghost use Rattle.cg_netlist.specs.Wiring.{map_cell, map_register};
ghost use Rattle.cg_netlist.specs.declared.parts.LogicFunction.TheVariants.{Cell};
ghost use Rattle.cg_netlist.specs.declared.parts.RegisterKind.TheVariants.{Flop};
ghost use Rattle.cg_netlist_placed.specs.Within.{AreNets, CellNets, RegisterNets};
ghost use Rattle.cg_verilog_text.specs.HasText.{is_ascii, names_of};
ghost use Rattle.cg_verilog_text.specs.Items.{Place};
ghost use Rattle.cg_verilog_text.specs.WrittenItems.{function_item, kind_items};
ghost use Rattle.cg_verilog_out.specs.Refusing.{AreLookedAt, ArePorts, ItemsAreLookedAt, PortsAreLookedAt};
ghost use Rattle.cg_verilog_out.specs.Writing.{cell_items, flop_items, gater_items, parts_items};

use crate::fault::VerilogOutFault;
use cg_cell::cell::CellType;
use cg_list::Seq;
use cg_net::id::{CellId, GateClockId, NetId, RegId};
use cg_net::net_set::NetSet;
use cg_netlist::netlist::Netlist;
use cg_netlist::parts::{CellView, Function, RegKind, RegView};
use cg_netlist_placed::pin::PinWord;
use cg_netlist_placed::pins::{flop_pins, gater_pins, logic_pins};
use std::alloc::Global;

/// Whether no byte of a name is above 126.
#[tactic(auto, using(crate::proofs::Searches::bytes))]
fn is_ascii(name: &[u8]) -> bool
    ensures { result ≡ is_ascii name.now }
{
    'bytes: for byte in name {
        if *byte > 126 {
            return false;
        }
    }
    true
}

/// Looks at a name.
fn check_name(alloc: Global, name: &[u8]) -> Result<(), VerilogOutFault>
    ensures { AreLookedAt (name.now ∷ []) result }
{
    if is_ascii(name) {
        return Ok(());
    }
    let bytes = Vec::from_slice(alloc, name)?;
    Err(VerilogOutFault::BadName(Seq::from_vec(bytes)))
}

/// Looks at the names of the model and of the nets.
fn check_nets(alloc: Global, netlist: &Netlist) -> Result<(), VerilogOutFault>
    ensures { AreLookedAt (netlist.now.model ∷ netlist.now.names) result }
{
    check_name(alloc, netlist.model())?;
    check_net_names(alloc, netlist)
}

/// Looks at the names of the nets.
fn check_net_names(alloc: Global, netlist: &Netlist) -> Result<(), VerilogOutFault>
    ensures { AreLookedAt netlist.now.names result }
{
    'nets: for number in 0..netlist.nets() {
        match check_name(alloc, netlist.name(NetId::new(number))) {
            Ok(()) => {}
            Err(fault) => return Err(fault),
        }
    }
    Ok(())
}

/// Looks at the names of pins.
fn check_pins(alloc: Global, pins: &[PinWord<'_>]) -> Result<(), VerilogOutFault>
    ensures { AreLookedAt (map (λ pin. pin.pin) pins.now) result }
{
    'pins: for pin in pins {
        match check_name(alloc, pin.pin) {
            Ok(()) => {}
            Err(fault) => return Err(fault),
        }
    }
    Ok(())
}

/// Looks at the names of a placed cell and of its pins.
fn check_placed(alloc: Global, cell: &CellType, pins: &[PinWord<'_>]) -> Result<(), VerilogOutFault>
    ensures { ItemsAreLookedAt (Place cell.now.name [] pins.now ∷ []) result }
{
    check_name(alloc, cell.name().bytes())?;
    check_pins(alloc, pins)
}

/// Looks at the names of a logic cell, which must be one of the netlist's.
fn check_cell(alloc: Global, netlist: &Netlist, id: CellId) -> Result<(), VerilogOutFault>
    requires netlist { IsNetlist netlist.now }
    requires id { id < length netlist.now.cells }
    ensures { (cell : LogicCell ℕ) → slice_get netlist.now.cells id ≡ Some cell → ItemsAreLookedAt (cell_items netlist.now.names cell) result }
{
    let cell = netlist.cell(id);
    match cell.function {
        Function::Cover(_) => Ok(()),
        Function::Cell(placed) => check_logic(alloc, netlist, &cell, placed),
    }
}

/// Looks at the names of a logic cell that is a placed cell.
fn check_logic(
    alloc: Global,
    netlist: &Netlist,
    cell: &CellView<'_>,
    placed: &CellType,
) -> Result<(), VerilogOutFault>
    requires { CellNets netlist.now (cell_seen cell.now) }
    ensures { ItemsAreLookedAt (function_item (map_cell (net_name netlist.now.names) (cell_seen cell.now)) (Cell placed.now) ∷ []) result }
{
    let pins = logic_pins(alloc, netlist, placed.pins(), cell.inputs, cell.output)?;
    check_placed(alloc, placed, &pins)
}

/// Looks at the names of a gating cell, which must be one of the netlist's.
fn check_gater(alloc: Global, netlist: &Netlist, id: GateClockId) -> Result<(), VerilogOutFault>
    requires netlist { IsNetlist netlist.now }
    requires id { id < length netlist.now.gaters }
    ensures { (gater : GatingCell ℕ) → slice_get netlist.now.gaters id ≡ Some gater → ItemsAreLookedAt (gater_items netlist.now.names gater) result }
{
    let gater = netlist.gater(id);
    let pins = gater_pins(alloc, netlist, gater.cell.pins(), &gater)?;
    check_placed(alloc, gater.cell, &pins)
}

/// Looks at the names of a register, which must be one of the netlist's.
fn check_register(alloc: Global, netlist: &Netlist, id: RegId) -> Result<(), VerilogOutFault>
    requires netlist { IsNetlist netlist.now }
    requires id { id < length netlist.now.registers }
    ensures { (register : RegisterCell ℕ ℕ) → slice_get netlist.now.registers id ≡ Some register
        → ItemsAreLookedAt (flop_items netlist.now.names register) result }
{
    let register = netlist.register(id);
    match register.kind {
        RegKind::Plain => Ok(()),
        RegKind::Cell(placed) => check_flop(alloc, netlist, &register, placed),
    }
}

/// Looks at the names of a register that is a placed cell.
fn check_flop(
    alloc: Global,
    netlist: &Netlist,
    register: &RegView<'_>,
    placed: &CellType,
) -> Result<(), VerilogOutFault>
    requires nets { RegisterNets netlist.now (register_seen register.now) }
    requires places { length register.now.pins.now ≡ length register.now.outputs.now }
    ensures { ItemsAreLookedAt (kind_items (map_register (net_name netlist.now.names) (register_seen register.now)) (Flop placed.now)) result }
{
    let pins = flop_pins(alloc, netlist, placed.pins(), register)?;
    check_placed(alloc, placed, &pins)
}

/// Looks at the names of the logic cells.
fn check_cells(alloc: Global, netlist: &Netlist) -> Result<(), VerilogOutFault>
    requires { IsNetlist netlist.now }
    ensures { ItemsAreLookedAt (flat_map (cell_items netlist.now.names) netlist.now.cells) result }
{
    'cells: for number in 0..netlist.cells() {
        match check_cell(alloc, netlist, CellId::new(number)) {
            Ok(()) => {}
            Err(fault) => return Err(fault),
        }
    }
    Ok(())
}

/// Looks at the names of the gating cells.
fn check_gaters(alloc: Global, netlist: &Netlist) -> Result<(), VerilogOutFault>
    requires { IsNetlist netlist.now }
    ensures { ItemsAreLookedAt (flat_map (gater_items netlist.now.names) netlist.now.gaters) result }
{
    'gaters: for number in 0..netlist.gaters() {
        match check_gater(alloc, netlist, GateClockId::new(number)) {
            Ok(()) => {}
            Err(fault) => return Err(fault),
        }
    }
    Ok(())
}

/// Looks at the names of the registers.
fn check_registers(alloc: Global, netlist: &Netlist) -> Result<(), VerilogOutFault>
    requires { IsNetlist netlist.now }
    ensures { ItemsAreLookedAt (flat_map (flop_items netlist.now.names) netlist.now.registers) result }
{
    'registers: for number in 0..netlist.registers() {
        match check_register(alloc, netlist, RegId::new(number)) {
            Ok(()) => {}
            Err(fault) => return Err(fault),
        }
    }
    Ok(())
}

/// Looks at the names of the gating cells and of the registers.
fn check_clocked(alloc: Global, netlist: &Netlist) -> Result<(), VerilogOutFault>
    requires { IsNetlist netlist.now }
    ensures { ItemsAreLookedAt (flat_map (gater_items netlist.now.names) netlist.now.gaters ++ flat_map (flop_items netlist.now.names) netlist.now.registers) result }
{
    match check_gaters(alloc, netlist) {
        Ok(()) => check_registers(alloc, netlist),
        Err(fault) => Err(fault),
    }
}

/// Looks at the names of all cells and registers.
fn check_parts(alloc: Global, netlist: &Netlist) -> Result<(), VerilogOutFault>
    requires { IsNetlist netlist.now }
    ensures { ItemsAreLookedAt (parts_items netlist.now) result }
{
    match check_cells(alloc, netlist) {
        Ok(()) => check_clocked(alloc, netlist),
        Err(fault) => Err(fault),
    }
}

/// Answers the first name of a netlist that is not ASCII.
pub(crate) fn check_names(alloc: Global, netlist: &Netlist) -> Result<(), VerilogOutFault>
    requires { IsNetlist netlist.now }
    ensures { AreLookedAt (names_of netlist.now) result }
{
    match check_nets(alloc, netlist) {
        Ok(()) => check_parts(alloc, netlist),
        Err(fault) => Err(fault),
    }
}

/// Answers the first output of a netlist that is an input.
pub(crate) fn check_ports(alloc: Global, netlist: &Netlist) -> Result<(), VerilogOutFault>
    requires { IsNetlist netlist.now }
    ensures { PortsAreLookedAt netlist.now result }
{
    let mut inputs = NetSet::new(alloc);
    inputs.extend(netlist.inputs())?;
    check_outputs(alloc, netlist, netlist.outputs(), &inputs)
}

/// Answers the first of these nets that is among inputs.
#[tactic(auto, using(crate::proofs::Searches::ports))]
fn check_outputs(
    alloc: Global,
    netlist: &Netlist,
    outputs: &[NetId],
    inputs: &NetSet,
) -> Result<(), VerilogOutFault>
    requires { AreNets netlist.now outputs.now }
    ensures { ArePorts netlist.now.names inputs.now outputs.now result }
{
    'outputs: for net in outputs {
        if inputs.contains(*net) {
            let bytes = Vec::from_slice(alloc, netlist.name(*net))?;
            return Err(VerilogOutFault::PortTwice(Seq::from_vec(bytes)));
        }
    }
    Ok(())
}
