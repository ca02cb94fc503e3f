//! Why a placed cell is no part.

ghost use Rattle.std.specs.Prelude.{◌≡◌};
ghost use Rattle.cg_netlist.specs.declared.fault.AddFault.TheVariants.{NoMemory};
ghost use Rattle.cg_netlist_placed.specs.declared.fault.Refusal.TheVariants.{Added, Placed};

use cg_netlist::fault::AddFault;
use std::alloc::{AllocError, AllocFailed};

/// Why a placed cell is no part, in the order in which these are looked for. Where the cell stands in a text is known to the
/// reader of the text alone.
#[derive(Clone, Copy, Debug, PartialEq, Eq)]
pub enum PlacedFault {
    /// The library has no cell of the name.
    UnknownCell,

    /// The library's cell of the name cannot be placed.
    UnusableCell,

    /// What is named is no pin, or a pin that was named before, or has a net without a name; or a pin that has to have a net
    /// has none.
    PinFault,
}

/// Why a placed cell is not taken.
#[derive(Clone, Copy, Debug, PartialEq, Eq)]
pub enum Refusal {
    /// It is no part.
    Placed(PlacedFault),

    /// It is a part that the builder refuses, or no memory was left.
    Added(AddFault),
}

impl From<PlacedFault> for Refusal {
    ghost from_gives = { λ fault e. e ≡ Placed fault };

    fn from(fault: PlacedFault) -> Refusal {
        Refusal::Placed(fault)
    }
}

impl From<AllocError> for Refusal {
    ghost from_gives = { λ _ e. e ≡ Added NoMemory };

    fn from(_refused: AllocError) -> Refusal {
        Refusal::Added(AddFault::NoMemory)
    }
}

impl<T: Drop> From<AllocFailed<T>> for Refusal {
    ghost from_gives = { λ _ e. e ≡ Added NoMemory };

    fn from(_refused: AllocFailed<T>) -> Refusal {
        Refusal::Added(AddFault::NoMemory)
    }
}
