//! The lines of logic cells, gating cells and registers.

ghost use Rattle.std.specs.Prelude.{◌≡◌, ◌++◌, ◌∷◌, ◌<◌, [], ℕ, OnOk, Some, length, slice_get};
ghost use Rattle.std.specs.List.{flat_map};
ghost use Rattle.cg_net.specs.Names.{net_name};
ghost use Rattle.cg_netlist.specs.Circuit.{GatingCell, LogicCell, RegisterCell};
ghost use Rattle.cg_netlist.specs.Netlist.{IsNetlist};
ghost use Rattle.cg_netlist.specs.View.{cell_seen, register_seen};
ghost use Rattle.cg_netlist.specs.WellFormed.{FitsKind};
ghost use Rattle.cg_netlist.specs.Wiring.{map_cell, map_register};
ghost use Rattle.cg_netlist.specs.declared.parts.RegisterKind.TheVariants.{Flop, Plain};
ghost use Rattle.cg_netlist.specs.declared.parts.LogicFunction.TheVariants.{Cell};
ghost use Rattle.cg_netlist_placed.specs.Within.{CellNets, RegisterNets};
ghost use Rattle.cg_verilog_text.specs.Items.{Place};
ghost use Rattle.cg_verilog_text.specs.Written.{item_line};
ghost use Rattle.cg_verilog_text.specs.WrittenItems.{function_item, init_items, kind_declared, kind_items};
ghost use Rattle.cg_verilog_out.specs.Writing.{Writes, cell_items, declarations, flop_items, gater_items};
ghost use Rattle.cg_verilog_out.specs.inner.Numbering.{left};
ghost use Rattle.cg_verilog_out.specs.inner.OpenTerms.{IsOpen};

use crate::cover::push_cover;
use crate::items::{push_initial, push_reg, push_rising};
use crate::labels::Labels;
use crate::places::push_placed;
use crate::term::OpenTerm;
use cg_cell::cell::CellType;
use cg_net::id::{CellId, GateClockId, RegId};
use cg_netlist::netlist::Netlist;
use cg_netlist::parts::{CellView, Function, RegKind, RegView};
use cg_netlist_placed::pin::PinWord;
use cg_netlist_placed::pins::{flop_pins, gater_pins, logic_pins};
use std::alloc::{AllocError, Global};

/// Appends the line of a placed cell, under the next label.
fn push_instance(
    out: &mut Vec<u8>,
    labels: &mut Labels<'_>,
    cell: &CellType,
    pins: &[PinWord<'_>],
) -> Result<(), AllocError>
    ensures { OnOk result (Writes (Place cell.now.name [] pins.now ∷ []) out.old.items out.new.items (left labels.old) (left labels.new)) }
{
    labels.advance()?;
    push_placed(out, cell.name().bytes(), labels.text(), pins)
}

/// Appends the line of a logic cell, which must be one of the netlist's.
pub(crate) fn push_cell<'a>(
    alloc: Global,
    out: &mut Vec<u8>,
    labels: &mut Labels<'_>,
    open_term: &mut OpenTerm<'a>,
    netlist: &'a Netlist,
    id: CellId,
) -> Result<(), AllocError>
    requires netlist { IsNetlist netlist.now }
    requires id { id < length netlist.now.cells }
    requires none { IsOpen netlist.now.names open_term.old (Some []) }
    ensures lines { OnOk result ((cell : LogicCell ℕ) → slice_get netlist.entry.now.cells id ≡ Some cell
        → Writes (cell_items netlist.entry.now.names cell) out.old.items out.new.items (left labels.old) (left labels.new)) }
    ensures none { OnOk result (IsOpen netlist.entry.now.names open_term.new (Some [])) }
{
    let cell = netlist.cell(id);
    match cell.function {
        Function::Cover(cover) => push_cover(alloc, out, open_term, netlist, &cell, cover),
        Function::Cell(placed) => push_logic(alloc, out, labels, netlist, &cell, placed),
    }
}

/// Appends the line of a logic cell that is a placed cell.
fn push_logic(
    alloc: Global,
    out: &mut Vec<u8>,
    labels: &mut Labels<'_>,
    netlist: &Netlist,
    cell: &CellView<'_>,
    placed: &CellType,
) -> Result<(), AllocError>
    requires { CellNets netlist.now (cell_seen cell.now) }
    ensures { OnOk result (Writes (function_item (map_cell (net_name netlist.now.names) (cell_seen cell.now)) (Cell placed.now) ∷ [])
        out.old.items out.new.items (left labels.old) (left labels.new)) }
{
    let pins = logic_pins(alloc, netlist, placed.pins(), cell.inputs, cell.output)?;
    push_instance(out, labels, placed, &pins)
}

/// Appends the line of a gating cell, which must be one of the netlist's.
pub(crate) fn push_gater(
    alloc: Global,
    out: &mut Vec<u8>,
    labels: &mut Labels<'_>,
    netlist: &Netlist,
    id: GateClockId,
) -> Result<(), AllocError>
    requires netlist { IsNetlist netlist.now }
    requires id { id < length netlist.now.gaters }
    ensures { OnOk result ((gater : GatingCell ℕ) → slice_get netlist.now.gaters id ≡ Some gater
        → Writes (gater_items netlist.now.names gater) out.old.items out.new.items (left labels.old) (left labels.new)) }
{
    let gater = netlist.gater(id);
    let pins = gater_pins(alloc, netlist, gater.cell.pins(), &gater)?;
    push_instance(out, labels, gater.cell, &pins)
}

/// Appends the lines of a register, which must be one of the netlist's.
pub(crate) fn push_register(
    alloc: Global,
    out: &mut Vec<u8>,
    labels: &mut Labels<'_>,
    netlist: &Netlist,
    id: RegId,
) -> Result<(), AllocError>
    requires netlist { IsNetlist netlist.now }
    requires id { id < length netlist.now.registers }
    ensures { OnOk result ((register : RegisterCell ℕ ℕ) → slice_get netlist.now.registers id ≡ Some register
        → Writes (flop_items netlist.now.names register) out.old.items out.new.items (left labels.old) (left labels.new)) }
{
    let register = netlist.register(id);
    match register.kind {
        RegKind::Plain => push_plain(out, netlist, &register),
        RegKind::Cell(placed) => push_flop(alloc, out, labels, netlist, &register, placed),
    }
}

/// Appends the line of a register that is a placed cell.
fn push_flop(
    alloc: Global,
    out: &mut Vec<u8>,
    labels: &mut Labels<'_>,
    netlist: &Netlist,
    register: &RegView<'_>,
    placed: &CellType,
) -> Result<(), AllocError>
    requires nets { RegisterNets netlist.now (register_seen register.now) }
    requires places { length register.now.pins.now ≡ length register.now.outputs.now }
    ensures { OnOk result (Writes (kind_items (map_register (net_name netlist.now.names) (register_seen register.now)) (Flop placed.now))
        out.old.items out.new.items (left labels.old) (left labels.new)) }
{
    let pins = flop_pins(alloc, netlist, placed.pins(), register)?;
    push_instance(out, labels, placed, &pins)
}

/// Appends the line of a plain register, and that of its init.
fn push_plain(
    out: &mut Vec<u8>,
    netlist: &Netlist,
    register: &RegView<'_>,
) -> Result<(), AllocError>
    requires nets { RegisterNets netlist.now (register_seen register.now) }
    requires fits { FitsKind Plain (register_seen register.now) }
    ensures { OnOk result (out.new.items
        ≡ out.old.items ++ flat_map item_line (kind_items (map_register (net_name netlist.now.names) (register_seen register.now)) Plain)) }
{
    match (register.inputs, register.outputs) {
        ([input, ..], [output, ..]) => {
            let net = netlist.name(output.0);
            push_rising(out, netlist.name(register.clock), net, netlist.name(*input))?;
            push_init(out, net, register.init)
        }
        _ => unreachable!(),
    }
}

/// Appends the line of the init of a register, where it is 0 or 1.
fn push_init(out: &mut Vec<u8>, net: &[u8], init: u8) -> Result<(), AllocError>
    ensures { OnOk result (out.new.items ≡ out.old.items ++ flat_map item_line (init_items net.now init)) }
{
    if init < 2 {
        push_initial(out, net, init == 1)
    } else {
        Ok(())
    }
}

/// Appends the line that declares a register, if it is a plain one; it must be one of the netlist's.
pub(crate) fn push_declared(
    out: &mut Vec<u8>,
    netlist: &Netlist,
    id: RegId,
) -> Result<(), AllocError>
    requires netlist { IsNetlist netlist.now }
    requires id { id < length netlist.now.registers }
    ensures { OnOk result ((register : RegisterCell ℕ ℕ) → slice_get netlist.now.registers id ≡ Some register
        → out.new.items ≡ out.old.items ++ flat_map item_line (declarations netlist.now.names register)) }
{
    let register = netlist.register(id);
    match register.kind {
        RegKind::Plain => push_shown(out, netlist, &register),
        RegKind::Cell(_) => Ok(()),
    }
}

/// Appends the line that declares a plain register.
fn push_shown(
    out: &mut Vec<u8>,
    netlist: &Netlist,
    register: &RegView<'_>,
) -> Result<(), AllocError>
    requires nets { RegisterNets netlist.now (register_seen register.now) }
    requires fits { FitsKind Plain (register_seen register.now) }
    ensures { OnOk result (out.new.items
        ≡ out.old.items ++ flat_map item_line (kind_declared (map_register (net_name netlist.now.names) (register_seen register.now)) Plain)) }
{
    match register.outputs {
        [output, ..] => push_reg(out, netlist.name(output.0)),
        [] => unreachable!(),
    }
}
