//! Logs that prove a formula unsatisfiable, and the checker that decides whether they do.
//!
//! What the checker does not take: it knows reverse unit propagation along hints alone, and no resolution asymmetric
//! tautologies (a negative hint is refused). Deletions are strict: an id that no live clause has is refused. Ids only
//! grow. Nothing behind the first step that adds the empty clause is looked at. It shares no code with a solver.
//!
//! Text goes in: a log in LRAT; and a formula. Out comes a verdict: the log is accepted, and then no assignment
//! satisfies the formula; or it is rejected at its first refused step, with the cause. The other way, logs are written
//! as text.
//!
//! Modules, as data flows through them:
//!
//! - `log`: [`Log`], [`Step`] and [`Body`], which are read, checked and written;
//! - `step_list`: [`StepList`], the steps of a log in one list of literals and one of ids;
//! - `id`: the words of hints;
//! - `lrat`: the text, read and written;
//! - `assignment`: the literals that are true within a step;
//! - `added` and `live`: the clauses that are live between steps, those of the log and all;
//! - `hint`: what a hint is worth;
//! - `progress`: one step of a log;
//! - `checker`: [`Checker`], the check of a whole log;
//! - `verdict`: [`Verdict`], its answer.
#![tactic(auto)]

mod added;
mod assignment;
mod checker;
mod hint;
mod id;
mod live;
mod log;
mod lrat;
mod progress;
mod step_list;
mod verdict;

pub use checker::Checker;
pub use log::{Body, Log, Step};
pub use lrat::{GREATEST_VARIABLE, LratFault, read_lrat, write_lrat};
pub use step_list::{BodyView, StepList, StepView};
pub use verdict::{Verdict, Why};
