//! A formula, as a DIMACS text says it.

ghost use Rattle.std.specs.Prelude.{◌≡◌, IfOk};
ghost use Rattle.cg_run.specs.Verdict.{Answers};
ghost use Rattle.cg_source.specs.Formula.{formula_found, formula_trouble};

use crate::refused::{at_place, plainly};
use cg_formula::{DimacsFault, Formula, read_dimacs};
use cg_list::Seq;
use cg_run::{Owner, Trouble};
use std::alloc::{AllocError, Global};

/// The formula that a text says.
pub fn take_formula(alloc: Global, text: &Seq<u8>) -> Result<Formula, Trouble>
    ensures { Answers (formula_found text.now) result }
{
    match read_dimacs(alloc, text.as_slice()) {
        Ok(formula) => Ok(formula),
        Err(fault) => Err(formula_trouble(alloc, fault)?),
    }
}

/// Why the text of a formula is refused.
fn formula_trouble(alloc: Global, fault: DimacsFault) -> Result<Trouble, AllocError>
    ensures { IfOk result (λ trouble. trouble ≡ formula_trouble fault) }
{
    match fault {
        DimacsFault::BadHeader => plainly(alloc, Owner::Stimulus, b"cnf: bad header"),
        DimacsFault::BadClause(line) => {
            at_place(alloc, Owner::Stimulus, b"cnf: bad clause ", line)
        }
        DimacsFault::Limit(limit) => Ok(Trouble::Limit(limit)),
        DimacsFault::NoMemory => Ok(Trouble::NoMemory),
    }
}
