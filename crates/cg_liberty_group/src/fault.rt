//! What the reading of a group may be given up for.

use cg_liberty_text::fault::TextFault;
use std::alloc::AllocError;

/// Why the reading of a group was given up.
#[derive(Clone, Copy)]
pub enum ReadFault {
    /// The text has a fault.
    Text(TextFault),

    /// There was not enough memory.
    NoMemory,
}

impl From<TextFault> for ReadFault {
    ghost use Rattle.std.specs.Prelude.{◌≡◌};
    ghost use Rattle.cg_liberty_group.specs.declared.fault.ReadFault.TheVariants as reads;

    ghost from_gives = { λ fault read. read ≡ reads.Text fault };

    fn from(fault: TextFault) -> ReadFault {
        ReadFault::Text(fault)
    }
}

impl From<AllocError> for ReadFault {
    ghost use Rattle.std.specs.Prelude.{◌≡◌};
    ghost use Rattle.cg_liberty_group.specs.declared.fault.ReadFault.TheVariants as reads;

    ghost from_gives = { λ _ read. read ≡ reads.NoMemory };

    fn from(_cause: AllocError) -> ReadFault {
        ReadFault::NoMemory
    }
}
