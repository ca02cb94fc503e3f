//! The refusals of a shelf's calls, and the record of a call that failed.

use std::alloc::{AllocError, AllocFailed, Global};
use std::marker::Model;

/// Why [`Shelf::load`](crate::Shelf::load) gave no bytes.
#[derive(Clone, Copy, Debug, PartialEq, Eq)]
pub enum LoadFault {
    /// The call failed; the shelf recorded it.
    Failed,
    /// The file is longer than the caller's limit.
    TooLong,
    /// There was no memory for the bytes.
    NoMemory,
}

impl From<AllocError> for LoadFault {
    ghost use Rattle.std.specs.Prelude.{◌≡◌};
    ghost use Rattle.cg_shelf.specs.declared.faults.LoadFault.TheVariants as loads;

    ghost from_gives = { λ _ e. e ≡ loads.NoMemory };

    fn from(_cause: AllocError) -> LoadFault {
        LoadFault::NoMemory
    }
}

/// Why a call that puts bytes out gave up.
#[derive(Clone, Copy, Debug, PartialEq, Eq)]
pub enum StoreFault {
    /// The call failed; the shelf recorded it.
    Failed,
    /// There was no memory.
    NoMemory,
}

impl From<AllocError> for StoreFault {
    ghost use Rattle.std.specs.Prelude.{◌≡◌};
    ghost use Rattle.cg_shelf.specs.declared.faults.StoreFault.TheVariants as stores;

    ghost from_gives = { λ _ e. e ≡ stores.NoMemory };

    fn from(_cause: AllocError) -> StoreFault {
        StoreFault::NoMemory
    }
}

impl<T: Drop> From<AllocFailed<T>> for StoreFault {
    ghost use Rattle.std.specs.Prelude.{◌≡◌};
    ghost use Rattle.cg_shelf.specs.declared.faults.StoreFault.TheVariants as stores;

    ghost from_gives = { λ _ e. e ≡ stores.NoMemory };

    fn from(_cause: AllocFailed<T>) -> StoreFault {
        StoreFault::NoMemory
    }
}

/// One of the four calls of a shelf.
#[derive(Clone, Copy, Debug, PartialEq, Eq)]
pub enum Call {
    /// Reading a file.
    Load,
    /// Writing a file.
    Store,
    /// Writing to standard output.
    Say,
    /// Writing to standard error.
    Complain,
}

/// The name of a file: a list of bytes, which need be no text.
#[derive(Debug, Drop)]
pub struct FileName {
    bytes: Vec<u8>,
}

impl Model for FileName {
    ghost use Rattle.std.specs.Prelude.{List, ℕ};

    ghost Value = { List ℕ };

    ghost view = { λ n. n.bytes.items };
}

impl FileName {
    ghost use Rattle.std.specs.Prelude.{◌≡◌, IfOk};

    /// The name with these bytes.
    pub fn new(alloc: Global, bytes: &[u8]) -> Result<FileName, AllocError>
        ensures { IfOk result (λ name. name ≡ bytes.now) }
    {
        Ok(FileName {
            bytes: Vec::from_slice(alloc, bytes)?,
        })
    }

    /// The bytes of the name.
    pub fn bytes(&self) -> &[u8]
        ensures { result.now ≡ self.now }
    {
        self.bytes.as_slice()
    }
}

/// A call that failed: which of the four it was, and the file that it was for. The name is empty for
/// `say` and `complain`.
#[derive(Debug, Drop)]
pub struct Fault {
    pub call: Call,
    pub name: FileName,
}

/// A call that was made, whatever it answered: which of the four it was, and the file that it was for. The name
/// is empty for `say` and `complain`.
#[derive(Debug, Drop)]
pub struct CallMade {
    pub call: Call,
    pub name: FileName,
}
