//! Why a text has a fault at a line, and why it is no netlist.

ghost use Rattle.std.specs.Prelude.{◌≡◌};
ghost use Rattle.cg_verilog_text.specs.declared.fault.VerilogFault.TheVariants.{NoMemory};

use cg_limit::Limit;
use cg_netlist_parts::fault::NetFault;
use cg_netlist_placed::fault::PlacedFault;
use std::alloc::{AllocError, AllocFailed};
use thiserror::Error;

/// What a text has wrong at a line, in the order in which the causes are looked for at one line.
#[derive(Clone, Copy, Debug, PartialEq, Eq)]
pub enum ItemFault {
    /// A token that no item allows, a net that stands twice where it may not, or an init of no register or given twice.
    BadText,

    /// The placed cell is no part.
    Placed(PlacedFault),

    /// This limit would be passed.
    Limit(Limit),
}

/// Why a text is no netlist: the first of the faults of its lines, or else what the netlist of all items has wrong. A number
/// is that of a line, counted from 1: of the token, of the end of the module for an init, and of the first token of the item
/// for the others; a text that ends too early is at fault at the line behind its last. At one line the causes are looked for in the order of this list.
#[derive(Debug, Drop, Error)]
pub enum VerilogFault {
    /// A token that no item allows, a net that stands twice where it may not, or an init of no register or given twice.
    #[error("line {0} has a token that no item allows")]
    BadText(u64),

    /// The library does not have the placed cell.
    #[error("line {0} places a cell that the library does not have")]
    UnknownCell(u64),

    /// The library's cell of that name cannot be placed.
    #[error("line {0} places a cell that cannot be placed")]
    UnusableCell(u64),

    /// A pin that the cell does not have, or that is named twice; or a pin that has to be given is not.
    #[error("line {0} does not give the pins of its cell")]
    PinFault(u64),

    /// All items were read, and they make no well-formed netlist.
    #[error("{0:?}")]
    Net(NetFault),

    /// This limit would be passed.
    #[error("the limit of {0:?} would be passed")]
    Limit(Limit),

    /// No memory was left.
    #[error("no memory")]
    NoMemory,
}

impl From<AllocError> for VerilogFault {
    ghost from_gives = { λ _ e. e ≡ NoMemory };

    fn from(_refused: AllocError) -> VerilogFault {
        VerilogFault::NoMemory
    }
}

impl<T: Drop> From<AllocFailed<T>> for VerilogFault {
    ghost from_gives = { λ _ e. e ≡ NoMemory };

    fn from(_refused: AllocFailed<T>) -> VerilogFault {
        VerilogFault::NoMemory
    }
}
