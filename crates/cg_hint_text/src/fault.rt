//! Why a hint text is refused.

ghost use Rattle.std.specs.Prelude.{◌≡◌};
ghost use Rattle.cg_hint_text.specs.declared.fault.HintFault.TheVariants.{NoMemory};

use std::alloc::AllocError;

/// The first fault of a hint text. Lines are counted from 1.
#[derive(Clone, Copy, Debug, PartialEq, Eq)]
pub enum HintFault {
    /// The line with this number has not the form of a hint, or names a register twice.
    BadLine(u64),

    /// A word of the line with this number is no register's name, or no net, or is the clock's name.
    UnknownName(u64),

    /// There was no memory.
    NoMemory,
}

impl From<AllocError> for HintFault {
    ghost from_gives = { λ _ e. e ≡ NoMemory };

    fn from(_refused: AllocError) -> HintFault {
        HintFault::NoMemory
    }
}
