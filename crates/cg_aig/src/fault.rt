//! Why an and-inverter list may refuse a call.

ghost use Rattle.std.specs.Prelude.{◌≡◌};
ghost use Rattle.cg_aig.specs.declared.fault.AigFault.TheVariants.{NoMemory};

use cg_limit::Limit;
use std::alloc::AllocFailed;

/// Why a call on an and-inverter list was refused.
#[derive(Clone, Copy, Debug, PartialEq, Eq)]
pub enum AigFault {
    /// Leaves and and-nodes together would be more than 65,536.
    Limit(Limit),

    /// There is no memory.
    NoMemory,
}

impl<T: Drop> From<AllocFailed<T>> for AigFault {
    ghost from_gives = { λ _ e. e ≡ NoMemory };

    fn from(_refused: AllocFailed<T>) -> AigFault {
        AigFault::NoMemory
    }
}
