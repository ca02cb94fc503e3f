//! The first fault of a text, as far as it was read.

ghost use Rattle.std.specs.Prelude.{◌≡◌, Some};
ghost use Rattle.cg_verilog_text.specs.Telling.{is_before, rank, sooner};
ghost use Rattle.cg_verilog_text.specs.VerilogText.{at};

use cg_netlist_placed::fault::PlacedFault;
use cg_verilog_text::fault::{ItemFault, VerilogFault};
use std::marker::Model;

/// What a text has wrong, and the line.
#[derive(Clone, Copy, Drop)]
pub struct Fault {
    /// The line, counted from 1.
    pub line: u64,

    /// What is wrong.
    pub cause: ItemFault,
}

impl Model for Fault {
    ghost use Rattle.cg_verilog_text.specs.Telling.{Fault as FaultSeen};

    ghost Value = { FaultSeen };

    ghost view = { λ f. record { line = f.line; cause = f.cause } };

    ghost inverse = { λ f. record { line = f.line; cause = f.cause } };
}

/// The first of the faults so far and one more.
pub fn sooner(first: Option<Fault>, fault: Fault) -> Fault
    ensures { Some result ≡ sooner first fault }
{
    match first {
        Some(first) if !is_before(&fault, &first) => first,
        _ => fault,
    }
}

/// Whether a fault comes before another.
fn is_before(fault: &Fault, other: &Fault) -> bool
    ensures { result ≡ is_before fault.now other.now }
{
    fault.line < other.line || (fault.line == other.line && rank(fault.cause) < rank(other.cause))
}

/// The place of a cause among the causes at one line.
fn rank(cause: ItemFault) -> u8
    ensures { result ≡ rank cause }
{
    match cause {
        ItemFault::BadText => 0,
        ItemFault::Placed(PlacedFault::UnknownCell) => 1,
        ItemFault::Placed(PlacedFault::UnusableCell) => 2,
        ItemFault::Placed(PlacedFault::PinFault) => 3,
        ItemFault::Limit(_) => 4,
    }
}

/// A fault, as the answer has it.
pub fn at(fault: Fault) -> VerilogFault
    ensures { result ≡ at fault.line fault.cause }
{
    match fault.cause {
        ItemFault::BadText => VerilogFault::BadText(fault.line),
        ItemFault::Placed(PlacedFault::UnknownCell) => VerilogFault::UnknownCell(fault.line),
        ItemFault::Placed(PlacedFault::UnusableCell) => VerilogFault::UnusableCell(fault.line),
        ItemFault::Placed(PlacedFault::PinFault) => VerilogFault::PinFault(fault.line),
        ItemFault::Limit(limit) => VerilogFault::Limit(limit),
    }
}
