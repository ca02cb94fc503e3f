//! Why an item is not told.

ghost use Rattle.std.specs.Prelude.{◌≡◌};
ghost use Rattle.cg_verilog.specs.Hearing.{heard};
ghost use Rattle.cg_verilog.specs.declared.refusal.Refusal.TheVariants.{NoMemory};

use cg_netlist::fault::AddFault;
use cg_verilog_text::fault::ItemFault;
use std::alloc::{AllocError, AllocFailed};

/// Why an item is not told.
#[derive(Clone, Copy)]
pub enum Refusal {
    /// What it has wrong.
    Item(ItemFault),

    /// No memory was left.
    NoMemory,
}

impl From<AllocError> for Refusal {
    ghost from_gives = { λ _ e. e ≡ NoMemory };

    fn from(_refused: AllocError) -> Refusal {
        Refusal::NoMemory
    }
}

impl<T: Drop> From<AllocFailed<T>> for Refusal {
    ghost from_gives = { λ _ e. e ≡ NoMemory };

    fn from(_refused: AllocFailed<T>) -> Refusal {
        Refusal::NoMemory
    }
}

/// What an item whose part a builder answered so is.
pub fn heard(answer: Result<(), AddFault>) -> Result<(), Refusal>
    ensures { result ≡ heard answer }
{
    match answer {
        Ok(()) => Ok(()),
        Err(AddFault::Limit(limit)) => Err(Refusal::Item(ItemFault::Limit(limit))),
        Err(AddFault::NoMemory) => Err(Refusal::NoMemory),
    }
}
