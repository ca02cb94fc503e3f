//! A proof log for a formula, as an LRAT text says it.

ghost use Rattle.std.specs.Prelude.{◌≡◌, IfOk};
ghost use Rattle.cg_run.specs.Verdict.{Answers};
ghost use Rattle.cg_source.specs.Log.{log_found, log_trouble};

use crate::refused::at_place;
use cg_list::Seq;
use cg_lrat::{Log, LratFault, read_lrat};
use cg_run::{Owner, Trouble};
use std::alloc::{AllocError, Global};

/// The log that a text says.
pub fn take_log(alloc: Global, text: &Seq<u8>) -> Result<Log, Trouble>
    ensures { Answers (log_found text.now) result }
{
    match read_lrat(alloc, text.as_slice()) {
        Ok(log) => Ok(log),
        Err(fault) => Err(log_trouble(alloc, fault)?),
    }
}

/// Why the text of a log is refused.
fn log_trouble(alloc: Global, fault: LratFault) -> Result<Trouble, AllocError>
    ensures { IfOk result (λ trouble. trouble ≡ log_trouble fault) }
{
    match fault {
        LratFault::BadLine(line) => at_place(alloc, Owner::Stimulus, b"proof: bad line ", line),
        LratFault::NoMemory => Ok(Trouble::NoMemory),
    }
}
