//! Lines of the module, of declarations and of plain registers.

ghost use Rattle.std.specs.Prelude.{◌≡◌, ◌++◌, ◌∷◌, OnOk, map};
ghost use Rattle.cg_net.specs.Names.{net_name};
ghost use Rattle.cg_netlist_placed.specs.Within.{AreNets};
ghost use Rattle.cg_verilog_text.specs.Items.{Initial};
ghost use Rattle.cg_verilog_text.specs.Written.{bit_text, item_line, module_line, update_text};
ghost use Rattle.cg_verilog_text.specs.WrittenItems.{declared_alone, input_item, output_item, rising};

use crate::names::{push_name, push_nets};
use cg_net::id::NetId;
use cg_netlist::netlist::Netlist;
use std::alloc::AllocError;

/// Appends the line of the module with these ports.
pub(crate) fn push_module(
    out: &mut Vec<u8>,
    netlist: &Netlist,
    ports: &[NetId],
) -> Result<(), AllocError>
    requires { AreNets netlist.now ports.now }
    ensures { OnOk result (out.new.items ≡ out.old.items ++ module_line netlist.now.model (map (net_name netlist.now.names) ports.now)) }
{
    out.extend_from_slice(b"module ")?;
    push_name(out, netlist.model())?;
    out.push(b'(')?;
    push_nets(out, netlist, ports)?;
    out.extend_from_slice(b");\n")
}

/// Appends the line of an input.
pub(crate) fn push_input(out: &mut Vec<u8>, net: &[u8]) -> Result<(), AllocError>
    ensures { OnOk result (out.new.items ≡ out.old.items ++ item_line (input_item net.now)) }
{
    out.extend_from_slice(b"  input ")?;
    push_name(out, net)?;
    out.extend_from_slice(b";\n")
}

/// Appends the line of an output.
pub(crate) fn push_output(out: &mut Vec<u8>, net: &[u8]) -> Result<(), AllocError>
    ensures { OnOk result (out.new.items ≡ out.old.items ++ item_line (output_item net.now)) }
{
    out.extend_from_slice(b"  output ")?;
    push_name(out, net)?;
    out.extend_from_slice(b";\n")
}

/// Appends the line that declares a register.
pub(crate) fn push_reg(out: &mut Vec<u8>, net: &[u8]) -> Result<(), AllocError>
    ensures { OnOk result (out.new.items ≡ out.old.items ++ item_line (declared_alone net.now)) }
{
    out.extend_from_slice(b"  reg ")?;
    push_name(out, net)?;
    out.extend_from_slice(b";\n")
}

/// Appends a bit.
pub(crate) fn push_bit(out: &mut Vec<u8>, bit: bool) -> Result<(), AllocError>
    ensures { OnOk result (out.new.items ≡ out.old.items ++ bit_text bit) }
{
    if bit {
        out.extend_from_slice(b"1'b1")
    } else {
        out.extend_from_slice(b"1'b0")
    }
}

/// Appends the line of an init.
pub(crate) fn push_initial(out: &mut Vec<u8>, net: &[u8], bit: bool) -> Result<(), AllocError>
    ensures { OnOk result (out.new.items ≡ out.old.items ++ item_line (Initial net.now bit)) }
{
    out.extend_from_slice(b"  initial ")?;
    push_name(out, net)?;
    out.extend_from_slice(b"= ")?;
    push_bit(out, bit)?;
    out.extend_from_slice(b";\n")
}

/// Appends the line of a register that takes the bit of a net where a clock rises.
#[tactic(auto, using(crate::proofs::PieceLemmas::rising))]
pub(crate) fn push_rising(
    out: &mut Vec<u8>,
    clock: &[u8],
    net: &[u8],
    takes: &[u8],
) -> Result<(), AllocError>
    ensures { OnOk result (out.new.items ≡ out.old.items ++ item_line (rising clock.now net.now takes.now)) }
{
    out.extend_from_slice(b"  always @(posedge ")?;
    push_name(out, clock)?;
    out.extend_from_slice(b") ")?;
    push_update(out, net, takes)?;
    out.push(b'\n')?;
    Ok(())
}

/// Appends what a register takes.
fn push_update(out: &mut Vec<u8>, net: &[u8], takes: &[u8]) -> Result<(), AllocError>
    ensures { OnOk result (out.new.items ≡ out.old.items ++ update_text (record { net = net.now; takes = takes.now })) }
{
    push_name(out, net)?;
    out.extend_from_slice(b"<= ")?;
    push_name(out, takes)?;
    out.push(b';')?;
    Ok(())
}
