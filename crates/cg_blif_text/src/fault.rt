//! Why a line says nothing, and why a text is no netlist.

ghost use Rattle.std.specs.Prelude.{◌≡◌};
ghost use Rattle.cg_blif_text.specs.declared.fault.BlifFault.TheVariants.{NoMemory};

use cg_limit::Limit;
use cg_netlist_parts::fault::NetFault;
use cg_netlist_placed::fault::PlacedFault;
use std::alloc::{AllocError, AllocFailed};
use thiserror::Error;

/// What a line has wrong, in the order in which the causes are looked for at one line.
#[derive(Clone, Copy, Debug, PartialEq, Eq)]
pub enum LineFault {
    /// The first word is no known command, a word ends in `\`, the words are not of the command's form, the line stands
    /// where it may not stand, or it is a row without a `.names` line.
    BadLine,

    /// A row has the wrong number of words, the wrong length or a wrong byte, or another value than the rows before it.
    BadCover,

    /// A `.latch` line has the wrong number of words, another type than `re`, or an init other than 0 to 3.
    BadLatch,

    /// The placed cell is no part; a word without `=` is a fault of the pins.
    Placed(PlacedFault),

    /// A second `.model` line, or one behind the `.end` line.
    SecondModel,

    /// This limit would be passed.
    Limit(Limit),
}

/// Why a text is no netlist: what the first line at fault has wrong, or else what the netlist of all lines has wrong. A
/// number is that of the line, counted from 1; of a line that joins others, that of the first of them. At one line the
/// causes are looked for in the order of this list.
#[derive(Debug, Drop, Error)]
pub enum BlifFault {
    /// The first word is no known command, a word ends in `\`, the words are not of the command's form, the line stands
    /// where it may not stand, or it is a row without a `.names` line.
    #[error("line {0} has no known form, or stands where it may not stand")]
    BadLine(u64),

    /// A row has the wrong number of words, the wrong length or a wrong byte, or another value than the rows before it.
    #[error("line {0} is no row of its cover")]
    BadCover(u64),

    /// A `.latch` line has the wrong number of words, another type than `re`, or an init other than 0 to 3.
    #[error("line {0} is no rising register")]
    BadLatch(u64),

    /// The library does not have the placed cell.
    #[error("line {0} places a cell that the library does not have")]
    UnknownCell(u64),

    /// The library's cell of that name cannot be placed.
    #[error("line {0} places a cell that cannot be placed")]
    UnusableCell(u64),

    /// A word without `=`, or for no pin, or for a pin that was given before, or with a net that has no name; or a pin
    /// that has to be given is not.
    #[error("line {0} does not give the pins of its cell")]
    PinFault(u64),

    /// A second `.model` line, or one behind the `.end` line.
    #[error("line {0} is a second model")]
    SecondModel(u64),

    /// All lines were read, and they make no well-formed netlist.
    #[error("{0:?}")]
    Net(NetFault),

    /// This limit would be passed.
    #[error("the limit of {0:?} would be passed")]
    Limit(Limit),

    /// No memory was left.
    #[error("no memory")]
    NoMemory,
}

impl From<AllocError> for BlifFault {
    ghost from_gives = { λ _ e. e ≡ NoMemory };

    fn from(_refused: AllocError) -> BlifFault {
        BlifFault::NoMemory
    }
}

impl<T: Drop> From<AllocFailed<T>> for BlifFault {
    ghost from_gives = { λ _ e. e ≡ NoMemory };

    fn from(_refused: AllocFailed<T>) -> BlifFault {
        BlifFault::NoMemory
    }
}
