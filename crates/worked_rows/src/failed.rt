//! Why a script is not played to its end.

use cg_formula::DimacsFault;
use cg_shelf::{LoadFault, StoreFault};
use std::alloc::{AllocError, AllocFailed};
use std::num::ParseIntError;
use std::str::Utf8Error;
use std::string::FromUtf8Error;

/// A line cannot be played, or memory or a call of the shelf failed.
#[derive(Clone, Copy, Debug)]
pub struct Failed;

impl From<AllocError> for Failed {
    fn from(_cause: AllocError) -> Failed {
        Failed
    }
}

impl<T: Drop> From<AllocFailed<T>> for Failed {
    fn from(_cause: AllocFailed<T>) -> Failed {
        Failed
    }
}

impl From<LoadFault> for Failed {
    fn from(_cause: LoadFault) -> Failed {
        Failed
    }
}

impl From<StoreFault> for Failed {
    fn from(_cause: StoreFault) -> Failed {
        Failed
    }
}

impl From<ParseIntError> for Failed {
    fn from(_cause: ParseIntError) -> Failed {
        Failed
    }
}

impl From<Utf8Error> for Failed {
    fn from(_cause: Utf8Error) -> Failed {
        Failed
    }
}

impl From<FromUtf8Error> for Failed {
    fn from(_cause: FromUtf8Error) -> Failed {
        Failed
    }
}

impl From<DimacsFault> for Failed {
    fn from(_cause: DimacsFault) -> Failed {
        Failed
    }
}
