//! Formulas that are solved.

ghost use Rattle.std.specs.Prelude.{IfOk};
ghost use Rattle.std.specs.Option.{IfSome};

use crate::failed::Failed;
use cg_formula::{Formula, Lit, read_dimacs};
use cg_lrat::write_lrat;
use cg_sat::{Solved, solve};
use std::alloc::Global;

/// What is said of a formula.
#[derive(Drop)]
pub enum Answer {
    /// These bits make each clause true.
    Satisfied,
    /// These bits do not.
    ModelFails,
    /// Nothing satisfies it: the text of the log that proves it.
    Refuted(Vec<u8>),
}

/// Solves the formula of a text.
pub fn solved(alloc: Global, text: &[u8]) -> Result<Answer, Failed> {
    let formula = read_dimacs(alloc, text)?;
    match solve(alloc, &formula)? {
        Solved::Sat(bits) => Ok(tried(&formula, bits.as_slice())),
        Solved::Unsat(log) => Ok(Answer::Refuted(write_lrat(alloc, &log)?)),
    }
}

/// What is said of bits that are to satisfy a formula.
fn tried(formula: &Formula, bits: &[bool]) -> Answer {
    if is_model(formula, bits) {
        Answer::Satisfied
    } else {
        Answer::ModelFails
    }
}

/// Whether a bit for each variable makes each clause true.
fn is_model(formula: &Formula, bits: &[bool]) -> bool {
    if bits.len() != formula.variables as usize {
        return false;
    }
    for place in 0..formula.clauses.len() {
        let clause = formula.clauses.at(place);
        if !clause.iter().any(|lit| is_true(bits, *lit)) {
            return false;
        }
    }
    true
}

fn is_true(bits: &[bool], lit: Lit) -> bool {
    bits.get((lit.variable as usize).wrapping_sub(1))
        .is_some_and(|bit| *bit != lit.inverted)
}
