//! Logs that prove a formula unsatisfiable, step by step, as in LRAT.

use crate::step_list::StepList;
use cg_formula::Clause;
use cg_list::Seq;

/// What a step of a log does.
#[derive(Debug, Drop)]
pub enum Body {
    /// Adds a clause. The ids are its hints: the clauses that, in this order, become unit, and the last false, once
    /// all literals of the added clause are taken as false.
    Add(Clause, Seq<u64>),
    /// Takes the clauses with these ids away.
    Delete(Seq<u64>),
}

/// A step of a log.
#[derive(Debug, Drop)]
pub struct Step {
    /// The line of the text that it stands on; from 1 on in a log that was not read from a text.
    pub line: u64,
    /// The id of the clause that is added, from 1 to 2^63 - 1. At a deletion it means nothing.
    pub id: u64,
    /// What is done.
    pub body: Body,
}

/// The steps of a proof, in order.
#[derive(Debug, Drop)]
pub struct Log {
    /// The steps.
    pub steps: StepList,
}
