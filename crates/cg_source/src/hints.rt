//! Conditions of the engineer's own.

ghost use Rattle.std.specs.Prelude.{◌≡◌, IfOk};
ghost use Rattle.cg_run.specs.Verdict.{Answers};
ghost use Rattle.cg_source.specs.Hints.{hints_found, hints_trouble};

use crate::refused::at_place;
use cg_hint_laws::hint::Hint;
use cg_hint_text::fault::HintFault;
use cg_hint_text::read::read_hints;
use cg_list::Seq;
use cg_netlist::netlist::Netlist;
use cg_run::{Owner, Trouble};
use std::alloc::{AllocError, Global};

/// The hints that a text says for a netlist.
pub fn take_hints(alloc: Global, text: &Seq<u8>, netlist: &Netlist) -> Result<Seq<Hint>, Trouble>
    ensures { Answers (hints_found netlist.now text.now) result }
{
    match read_hints(alloc, text.as_slice(), netlist) {
        Ok(hints) => Ok(hints),
        Err(fault) => Err(hints_trouble(alloc, fault)?),
    }
}

/// Why a hint text is refused.
fn hints_trouble(alloc: Global, fault: HintFault) -> Result<Trouble, AllocError>
    ensures { IfOk result (λ trouble. trouble ≡ hints_trouble fault) }
{
    match fault {
        HintFault::BadLine(line) => at_place(alloc, Owner::Stimulus, b"hints: bad line ", line),
        HintFault::UnknownName(line) => {
            at_place(alloc, Owner::Stimulus, b"hints: unknown name ", line)
        }
        HintFault::NoMemory => Ok(Trouble::NoMemory),
    }
}
