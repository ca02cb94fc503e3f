//! Why a text is no expression.

ghost use Rattle.std.specs.Prelude.{◌≡◌};
ghost use Rattle.cg_liberty_expression.specs.declared.fault.ExprFault.TheVariants.{NoMemory};

use std::alloc::{AllocError, AllocFailed};

/// The first fault of the text of an expression, from the left. A place counts bytes from 0.
#[derive(Debug, Drop)]
pub enum ExprFault {
    /// At this byte no reading can go on.
    BadExpr(u64),

    /// The name that begins at this byte is none of the pins.
    UnknownPin(u64),

    /// At this byte the nesting of brackets and signs `!` passes the most that it may be.
    TooDeep(u64),

    /// No memory was left.
    NoMemory,
}

impl From<AllocError> for ExprFault {
    ghost from_gives = { λ _ e. e ≡ NoMemory };

    fn from(_refused: AllocError) -> ExprFault {
        ExprFault::NoMemory
    }
}

impl<T: Drop> From<AllocFailed<T>> for ExprFault {
    ghost from_gives = { λ _ e. e ≡ NoMemory };

    fn from(_refused: AllocFailed<T>) -> ExprFault {
        ExprFault::NoMemory
    }
}
