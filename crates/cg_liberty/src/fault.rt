//! What a text may be refused for.

ghost use Rattle.std.specs.Prelude.{◌≡◌};
ghost use Rattle.cg_liberty.specs.Library.{text_refusal};

use cg_cell::name::Name;
use cg_liberty_group::fault::ReadFault;
use cg_liberty_text::fault::TextFault;
use cg_limit::Limit;
use std::alloc::{AllocError, AllocFailed};

/// Why a cell is refused.
#[derive(Clone, Copy)]
pub enum CellFault {
    /// One of its expressions is none, at this byte of its text.
    BadExpr(u64),

    /// One of its expressions nests deeper than 64.
    Nesting,

    /// There was not enough memory.
    NoMemory,
}

impl From<AllocError> for CellFault {
    ghost use Rattle.std.specs.Prelude.{◌≡◌};
    ghost use Rattle.cg_liberty.specs.declared.fault.CellFault.TheVariants as cells;

    ghost from_gives = { λ _ fault. fault ≡ cells.NoMemory };

    fn from(_cause: AllocError) -> CellFault {
        CellFault::NoMemory
    }
}

impl<T: Drop> From<AllocFailed<T>> for CellFault {
    ghost use Rattle.std.specs.Prelude.{◌≡◌};
    ghost use Rattle.cg_liberty.specs.declared.fault.CellFault.TheVariants as cells;

    ghost from_gives = { λ _ fault. fault ≡ cells.NoMemory };

    fn from(_cause: AllocFailed<T>) -> CellFault {
        CellFault::NoMemory
    }
}

/// Why a text is refused as a library: its first fault.
#[derive(Debug, Drop)]
pub enum LibertyFault {
    /// At this place no token begins, or a string or comment begins that is not closed.
    BadToken(u64),

    /// At this place stands a token that may not stand there, or the text ends too early.
    BadGroup(u64),

    /// An expression of the cell of this name is none, at this byte of its own text.
    BadExpr(Name, u64),

    /// A second cell has this name.
    TwoCells(Name),

    /// Groups or an expression nest too deep, or there are too many cells.
    Limit(Limit),

    /// There was not enough memory.
    NoMemory,
}

impl From<AllocError> for LibertyFault {
    ghost use Rattle.std.specs.Prelude.{◌≡◌};
    ghost use Rattle.cg_liberty.specs.declared.fault.LibertyFault.TheVariants as faults;

    ghost from_gives = { λ _ fault. fault ≡ faults.NoMemory };

    fn from(_cause: AllocError) -> LibertyFault {
        LibertyFault::NoMemory
    }
}

/// The refusal for a fault of the text.
fn refusal_of_text(fault: TextFault) -> LibertyFault
    ensures { result ≡ text_refusal fault }
{
    match fault {
        TextFault::BadToken(at) => LibertyFault::BadToken(at as u64),
        TextFault::BadGroup(at) => LibertyFault::BadGroup(at as u64),
        TextFault::Nesting => LibertyFault::Limit(Limit::Nesting),
    }
}

impl From<ReadFault> for LibertyFault {
    ghost use Rattle.std.specs.Prelude.{◌≡◌};
    ghost use Rattle.cg_liberty.specs.inner.Refusals.{read_refusal};

    ghost from_gives = { λ fault refusal. refusal ≡ read_refusal fault };

    fn from(fault: ReadFault) -> LibertyFault {
        match fault {
            ReadFault::Text(fault) => refusal_of_text(fault),
            ReadFault::NoMemory => LibertyFault::NoMemory,
        }
    }
}
