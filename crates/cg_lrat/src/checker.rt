//! The check of a log against a formula.

ghost use Rattle.std.specs.Prelude.{◌≡◌, Ok, IfOk};
ghost use Rattle.cg_lrat.specs.declared.verdict.Verdict.{Verdict};
ghost use Rattle.cg_lrat.specs.Accepted.{verdict, verdict_from};
ghost use Rattle.cg_lrat.specs.AcceptedLog.{IsVerdict};
ghost use Rattle.cg_lrat.specs.inner.Progress.{state_of};
ghost use Rattle.cg_formula.specs.Satisfiable.{IsUnsatisfiable};

use crate::log::Log;
use crate::progress::{Next, Progress};
use crate::step_list::StepList;
use crate::verdict::{Verdict, Why};
use cg_formula::Formula;
use std::alloc::{AllocError, Global};

/// The check of logs. It knows nothing of how a log was found: it takes the steps in order, and looks at each
/// addition along its own hints alone.
pub struct Checker;

/// The verdict that the steps give.
fn take_all<'a>(progress: &mut Progress<'a>, steps: &'a StepList) -> Result<Verdict, AllocError>
    ensures { IfOk result (λ found. found ≡ verdict_from (state_of progress.old) steps.entry.now) }
{
    for place in 0..steps.len() {
        let step = steps.at(place);
        match progress.take(step)? {
            Next::Refused(why) => return Ok(Verdict::Rejected(step.line, why)),
            Next::Accepted => return Ok(Verdict::Accepted),
            Next::Later => {}
        }
    }
    Ok(Verdict::Rejected(0, Why::NoEmpty))
}

/// The verdict.
fn run<'a>(alloc: Global, formula: &'a Formula, log: &'a Log) -> Result<Verdict, AllocError>
    ensures { IfOk result (λ found. found ≡ verdict formula.entry.now log.entry.now) }
{
    let mut progress = Progress::start(alloc, formula)?;
    take_all(&mut progress, &log.steps)
}

impl Checker {
    /// Checks a log against a formula.
    ///
    /// `Accepted` is an answer that can be relied on: no assignment satisfies the formula. `Rejected` says nothing
    /// of the formula.
    pub fn check(alloc: Global, formula: &Formula, log: &Log) -> Result<Verdict, AllocError>
        ensures deserved { IfOk result (λ found. IsVerdict formula.now log.now found) }
        ensures only { (v : Verdict) → IsVerdict formula.now log.now v → IfOk result (λ found. found ≡ v) }
        ensures exact { IfOk result (λ found. found ≡ verdict formula.now log.now) }
        ensures sound { result ≡ Ok Verdict.Accepted → IsUnsatisfiable formula.now }
    {
        run(alloc, formula, log)
    }
}
