//! The text of a netlist.

ghost use Rattle.std.specs.Prelude.{◌≡◌, ◌++◌, ◌∷◌, ◌<◌, [], List, IfErr, IfOk, OnOk, Some, length, map};
ghost use Rattle.std.specs.List.{flat_map};
ghost use Rattle.cg_cell.specs.Cell.{CellData};
ghost use Rattle.cg_net.specs.Names.{net_name};
ghost use Rattle.cg_net.specs.NetSets.{is_in};
ghost use Rattle.cg_netlist.specs.Netlist.{IsNetlist};
ghost use Rattle.cg_netlist_parts.specs.Writable.{IsPlaceable};
ghost use Rattle.cg_netlist_placed.specs.Within.{AreNets};
ghost use Rattle.cg_verilog_text.specs.HasText.{HasText};
ghost use Rattle.cg_verilog_text.specs.Kept.{inputs_and_clock};
ghost use Rattle.cg_verilog_text.specs.Laws.{ReadsBack, SameHistories};
ghost use Rattle.cg_verilog_text.specs.Written.{verilog};
ghost use Rattle.cg_verilog_out.specs.Refusing.{IsFirstOutFault};
ghost use Rattle.cg_verilog_out.specs.Writing.{Writes, cell_items, declaration_lines, flop_items, gater_items, head_text, input_line};
ghost use Rattle.cg_verilog_out.specs.Writing.{output_line, parts_text, port_line};
ghost use Rattle.cg_verilog_out.specs.inner.Numbering.{left};
ghost use Rattle.cg_verilog_out.specs.inner.OpenTerms.{IsOpen};

use crate::fault::VerilogOutFault;
use crate::items::{push_input, push_module, push_output};
use crate::labels::Labels;
use crate::part_items::{push_cell, push_declared, push_gater, push_register};
use crate::refusals::{check_names, check_ports};
use crate::term::OpenTerm;
use cg_net::id::{CellId, GateClockId, NetId, RegId};
use cg_netlist::netlist::Netlist;
use cg_verilog_text::laws::{same_histories, text_reads_back};
use std::alloc::{AllocError, Global};

/// Whether a net is among these.
#[tactic(auto, using(crate::proofs::Searches::members))]
fn is_among(nets: &[NetId], net: NetId) -> bool
    ensures { result ≡ is_in nets.now net }
{
    'nets: for other in nets {
        if net.number() == other.number() {
            return true;
        }
    }
    false
}

/// The inputs, and behind them the clock where it is none.
fn all_inputs(alloc: Global, netlist: &Netlist) -> Result<Vec<NetId>, AllocError>
    ensures { IfOk result (λ nets. nets.items ≡ inputs_and_clock netlist.now.inputs netlist.now.clock) }
{
    let mut nets = Vec::from_slice(alloc, netlist.inputs())?;
    if let Some(clock) = netlist.clock() {
        if !is_among(netlist.inputs(), clock) {
            nets.push(clock)?;
        }
    }
    Ok(nets)
}

/// Appends the line of the module, whose ports are these inputs and the outputs.
fn push_ports(
    alloc: Global,
    out: &mut Vec<u8>,
    netlist: &Netlist,
    inputs: &[NetId],
) -> Result<(), AllocError>
    requires netlist { IsNetlist netlist.now }
    requires inputs { AreNets netlist.now inputs.now }
    ensures { OnOk result (out.new.items ≡ out.old.items ++ port_line netlist.now inputs.now) }
{
    let mut ports = Vec::from_slice(alloc, inputs)?;
    ports.extend_from_slice(netlist.outputs())?;
    push_module(out, netlist, &ports)
}

/// Appends the lines of inputs.
#[tactic(auto, using(crate::proofs::Searches::lines))]
fn push_inputs(out: &mut Vec<u8>, netlist: &Netlist, nets: &[NetId]) -> Result<(), AllocError>
    requires { AreNets netlist.now nets.now }
    ensures { OnOk result (out.new.items ≡ out.old.items ++ flat_map (input_line netlist.now.names) nets.now) }
{
    'nets: for net in nets {
        push_input(out, netlist.name(*net))?;
    }
    Ok(())
}

/// Appends the lines of outputs.
#[tactic(auto, using(crate::proofs::Searches::lines))]
fn push_outputs(out: &mut Vec<u8>, netlist: &Netlist, nets: &[NetId]) -> Result<(), AllocError>
    requires { AreNets netlist.now nets.now }
    ensures { OnOk result (out.new.items ≡ out.old.items ++ flat_map (output_line netlist.now.names) nets.now) }
{
    'nets: for net in nets {
        push_output(out, netlist.name(*net))?;
    }
    Ok(())
}

/// Appends the lines that declare the plain registers.
fn push_declarations(out: &mut Vec<u8>, netlist: &Netlist) -> Result<(), AllocError>
    requires { IsNetlist netlist.now }
    ensures { OnOk result (out.new.items ≡ out.old.items ++ flat_map (declaration_lines netlist.now.names) netlist.now.registers) }
{
    'registers: for number in 0..netlist.registers() {
        push_declared(out, netlist, RegId::new(number))?;
    }
    Ok(())
}

/// Appends the lines before the cells: the module, the inputs and the clock, the outputs, and the plain registers.
#[tactic(auto, using(crate::proofs::WholeText::pieces))]
fn push_head(alloc: Global, out: &mut Vec<u8>, netlist: &Netlist) -> Result<(), AllocError>
    requires { IsNetlist netlist.now }
    ensures { OnOk result (out.new.items ≡ out.old.items ++ head_text netlist.now) }
{
    let inputs = all_inputs(alloc, netlist)?;
    push_ports(alloc, out, netlist, &inputs)?;
    push_inputs(out, netlist, &inputs)?;
    push_outputs(out, netlist, netlist.outputs())?;
    push_declarations(out, netlist)
}

/// Appends the lines of the logic cells.
fn push_cells(
    alloc: Global,
    out: &mut Vec<u8>,
    labels: &mut Labels<'_>,
    netlist: &Netlist,
) -> Result<(), AllocError>
    requires { IsNetlist netlist.now }
    ensures { OnOk result (Writes (flat_map (cell_items netlist.now.names) netlist.now.cells) out.old.items out.new.items (left labels.old) (left labels.new)) }
{
    let mut open_term = OpenTerm::new(alloc);
    'cells: for number in 0..netlist.cells() {
        push_cell(
            alloc,
            out,
            labels,
            &mut open_term,
            netlist,
            CellId::new(number),
        )?;
    }
    Ok(())
}

/// Appends the lines of the gating cells.
fn push_gaters(
    alloc: Global,
    out: &mut Vec<u8>,
    labels: &mut Labels<'_>,
    netlist: &Netlist,
) -> Result<(), AllocError>
    requires { IsNetlist netlist.now }
    ensures { OnOk result (Writes (flat_map (gater_items netlist.now.names) netlist.now.gaters) out.old.items out.new.items (left labels.old) (left labels.new)) }
{
    'gaters: for number in 0..netlist.gaters() {
        push_gater(alloc, out, labels, netlist, GateClockId::new(number))?;
    }
    Ok(())
}

/// Appends the lines of the registers.
fn push_registers(
    alloc: Global,
    out: &mut Vec<u8>,
    labels: &mut Labels<'_>,
    netlist: &Netlist,
) -> Result<(), AllocError>
    requires { IsNetlist netlist.now }
    ensures { OnOk result (Writes (flat_map (flop_items netlist.now.names) netlist.now.registers) out.old.items out.new.items (left labels.old) (left labels.new)) }
{
    'registers: for number in 0..netlist.registers() {
        push_register(alloc, out, labels, netlist, RegId::new(number))?;
    }
    Ok(())
}

/// Appends the lines of all cells and registers.
fn push_parts(alloc: Global, out: &mut Vec<u8>, netlist: &Netlist) -> Result<(), AllocError>
    requires { IsNetlist netlist.now }
    ensures { OnOk result (out.new.items ≡ out.old.items ++ parts_text netlist.now) }
{
    let mut labels = Labels::new(alloc, netlist);
    push_cells(alloc, out, &mut labels, netlist)?;
    push_gaters(alloc, out, &mut labels, netlist)?;
    push_registers(alloc, out, &mut labels, netlist)
}

/// The text of a netlist.
fn text(alloc: Global, netlist: &Netlist) -> Result<Vec<u8>, AllocError>
    requires { IsNetlist netlist.now }
    ensures { IfOk result (λ text. text.items ≡ verilog netlist.now) }
{
    let mut out = Vec::new(alloc);
    push_head(alloc, &mut out, netlist)?;
    push_parts(alloc, &mut out, netlist)?;
    out.extend_from_slice(b"endmodule\n")?;
    Ok(out)
}

/// The text of a netlist, one item a line: the module, the inputs and the clock, the outputs, the plain registers, the logic
/// cells, the gating cells, the registers with their inits, and the end. A net whose name is not ASCII has no place in it, nor
/// an output that is an input. Takes one pass more to find these, and time and memory as the text is long.
pub fn write_verilog(alloc: Global, netlist: &Netlist) -> Result<Vec<u8>, VerilogOutFault>
    ensures text { IfOk result (λ text. HasText netlist.now × (text.items ≡ verilog netlist.now)) }

    // Where the netlist is placed with the cells of a library, the text is read back as an equal one.
    ensures says { IfOk result (λ text. (library : List CellData) → IsPlaceable library netlist.now → ReadsBack library netlist.now text.items) }

    // Equal netlists have the same lawful histories, with the same outputs and edges: so what is read back does what the
    // netlist does.
    ensures same { SameHistories }
    ensures refused { IfErr result (λ fault. IsFirstOutFault netlist.now fault) }
{
    let _ = netlist.cells();
    same_histories();
    check_names(alloc, netlist)?;
    check_ports(alloc, netlist)?;
    text_reads_back();
    let text = text(alloc, netlist)?;
    Ok(text)
}
