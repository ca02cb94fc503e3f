//! Why a stimulus is refused.

use cg_cell::name::Name;
use cg_limit::Limit;
use std::alloc::{AllocError, AllocFailed};

/// The first fault of a stimulus text. Lines are counted from 1.
#[derive(Debug, Drop)]
pub enum StimulusFault {
    /// A name in the first line, which has this number, is no data input, or stands there twice.
    BadName(u64),

    /// The first data input that the first line does not name.
    MissingInput(Name),

    /// The line with this number is no row, or the first line does not begin with the word `inputs`; 0 where the text has no line.
    BadRow(u64),

    /// There are more rows than a stimulus may have.
    Limit(Limit),

    /// There was no memory.
    NoMemory,
}

impl From<AllocError> for StimulusFault {
    ghost use Rattle.std.specs.Prelude.{◌≡◌};
    ghost use Rattle.cg_stimulus.specs.declared.fault.StimulusFault.TheVariants.{NoMemory};

    ghost from_gives = { λ _ e. e ≡ NoMemory };

    fn from(_: AllocError) -> Self {
        StimulusFault::NoMemory
    }
}

impl<T: Drop> From<AllocFailed<T>> for StimulusFault {
    ghost use Rattle.std.specs.Prelude.{◌≡◌};
    ghost use Rattle.cg_stimulus.specs.declared.fault.StimulusFault.TheVariants.{NoMemory};

    ghost from_gives = { λ _ e. e ≡ NoMemory };

    fn from(_: AllocFailed<T>) -> Self {
        StimulusFault::NoMemory
    }
}
