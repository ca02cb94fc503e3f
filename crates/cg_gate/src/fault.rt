//! Why a netlist is not gated.

ghost use Rattle.std.specs.Prelude.{◌≡◌};
ghost use Rattle.cg_gate.specs.declared.fault.GateFault.TheVariants.{NoMemory};

use cg_limit::Limit;
use cg_list::Seq;
use cg_netlist::fault::AddFault;
use cg_verilog_out::fault::VerilogOutFault;
use std::alloc::AllocError;
use thiserror::Error;

/// Why a netlist is not gated, in the order in which the causes are looked for. A name is told by its bytes.
#[derive(Debug, Drop, Error)]
pub enum GateFault {
    /// The plan stops at this limit, or the gated netlist would pass it.
    #[error("the limit of {0:?} would be passed")]
    Limit(Limit),

    /// A Verilog text is asked for, and this name of the gated netlist holds a byte above 126: the first of those of the model,
    /// the nets, and the placed cells with their pins.
    #[error("{0:?} is no name of a Verilog text")]
    BadName(Seq<u8>),

    /// A Verilog text is asked for, and this output of the gated netlist is an input: the first one.
    #[error("{0:?} is an input and an output")]
    PortTwice(Seq<u8>),

    /// No memory was left.
    #[error("no memory")]
    NoMemory,
}

impl From<AllocError> for GateFault {
    ghost from_gives = { λ _ fault. fault ≡ NoMemory };

    fn from(_refused: AllocError) -> GateFault {
        GateFault::NoMemory
    }
}

impl From<AddFault> for GateFault {
    ghost use Rattle.cg_gate.specs.Stops.{fault_of_limit};

    ghost from_gives = { λ cause fault. fault ≡ fault_of_limit cause };

    fn from(cause: AddFault) -> GateFault {
        match cause {
            AddFault::Limit(limit) => GateFault::Limit(limit),
            AddFault::NoMemory => GateFault::NoMemory,
        }
    }
}

impl From<VerilogOutFault> for GateFault {
    ghost use Rattle.cg_gate.specs.Stops.{fault_of_text};

    ghost from_gives = { λ cause fault. fault ≡ fault_of_text cause };

    fn from(cause: VerilogOutFault) -> GateFault {
        match cause {
            VerilogOutFault::BadName(name) => GateFault::BadName(name),
            VerilogOutFault::PortTwice(net) => GateFault::PortTwice(net),
            VerilogOutFault::NoMemory => GateFault::NoMemory,
        }
    }
}
