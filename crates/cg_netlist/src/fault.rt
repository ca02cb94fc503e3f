//! Why a part is not taken.

ghost use Rattle.std.specs.Prelude.{◌≡◌};
ghost use Rattle.cg_netlist.specs.declared.fault.AddFault.TheVariants.{NoMemory};

use cg_limit::Limit;
use std::alloc::AllocError;

/// Why a part is not added to a netlist that is being built.
#[derive(Clone, Copy, Debug, PartialEq, Eq)]
pub enum AddFault {
    /// The part would pass a limit: that of nets, or that of registers.
    Limit(Limit),

    /// There was no memory.
    NoMemory,
}

impl From<AllocError> for AddFault {
    ghost from_gives = { λ _ e. e ≡ NoMemory };

    fn from(_refused: AllocError) -> AddFault {
        AddFault::NoMemory
    }
}
