//! Why a line is not taken, and the fault of a text that it makes.

ghost use Rattle.std.specs.Prelude.{◌≡◌};
ghost use Rattle.cg_blif_text.specs.Telling.{at};
ghost use Rattle.cg_blif.specs.Hearing.{at_line};
ghost use Rattle.cg_blif.specs.declared.fault.Refusal.TheVariants.{Line, NoMemory};
ghost use Rattle.cg_blif_text.specs.declared.fault.LineFault.TheVariants.{Placed};

use cg_blif_text::fault::{BlifFault, LineFault};
use cg_netlist_placed::fault::PlacedFault;
use std::alloc::{AllocError, AllocFailed};

/// Why a line is not taken: what it has wrong, or that no memory was left.
#[derive(Drop)]
pub enum Refusal {
    /// What the line has wrong.
    Line(LineFault),

    /// No memory was left.
    NoMemory,
}

impl From<PlacedFault> for Refusal {
    ghost from_gives = { λ fault e. e ≡ Line (Placed fault) };

    fn from(fault: PlacedFault) -> Refusal {
        Refusal::Line(LineFault::Placed(fault))
    }
}

impl From<AllocError> for Refusal {
    ghost from_gives = { λ _ e. e ≡ NoMemory };

    fn from(_refused: AllocError) -> Refusal {
        Refusal::NoMemory
    }
}

impl<T: Drop> From<AllocFailed<T>> for Refusal {
    ghost from_gives = { λ _ e. e ≡ NoMemory };

    fn from(_refused: AllocFailed<T>) -> Refusal {
        Refusal::NoMemory
    }
}

/// The fault of a text whose line of this number is not taken.
pub fn at_line(number: u64, refusal: Refusal) -> BlifFault
    ensures { result ≡ at_line number refusal }
{
    match refusal {
        Refusal::Line(cause) => at(number, cause),
        Refusal::NoMemory => BlifFault::NoMemory,
    }
}

/// The fault of a text whose line of this number has this wrong.
pub fn at(number: u64, cause: LineFault) -> BlifFault
    ensures { result ≡ at number cause }
{
    match cause {
        LineFault::BadLine => BlifFault::BadLine(number),
        LineFault::BadCover => BlifFault::BadCover(number),
        LineFault::BadLatch => BlifFault::BadLatch(number),
        LineFault::Placed(PlacedFault::UnknownCell) => BlifFault::UnknownCell(number),
        LineFault::Placed(PlacedFault::UnusableCell) => BlifFault::UnusableCell(number),
        LineFault::Placed(PlacedFault::PinFault) => BlifFault::PinFault(number),
        LineFault::SecondModel => BlifFault::SecondModel(number),
        LineFault::Limit(limit) => BlifFault::Limit(limit),
    }
}
