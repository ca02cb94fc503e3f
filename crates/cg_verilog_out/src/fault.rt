//! Why a netlist has no text.

ghost use Rattle.std.specs.Prelude.{◌≡◌};
ghost use Rattle.cg_verilog_out.specs.declared.fault.VerilogOutFault.TheVariants.{NoMemory};

use cg_list::Seq;
use std::alloc::AllocError;
use thiserror::Error;

/// Why a netlist has no Verilog text, in the order in which the causes are looked for. A name is told by its bytes.
#[derive(Debug, Drop, Error)]
pub enum VerilogOutFault {
    /// This name holds a byte above 126: the first of those of the model, the nets, and the placed cells with their pins.
    #[error("{0:?} is no name of a Verilog text")]
    BadName(Seq<u8>),

    /// This net is an output that is an input: the first one.
    #[error("{0:?} is an input and an output")]
    PortTwice(Seq<u8>),

    /// No memory was left.
    #[error("no memory")]
    NoMemory,
}

impl From<AllocError> for VerilogOutFault {
    ghost from_gives = { λ _ e. e ≡ NoMemory };

    fn from(_refused: AllocError) -> VerilogOutFault {
        VerilogOutFault::NoMemory
    }
}
