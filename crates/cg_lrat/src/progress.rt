//! The state of a check between two steps of a log.

ghost use Rattle.std.specs.Prelude.{◌≡◌, ◌==◌, Ok, Some, IfOk, OnOk, IsNone, length, map, nat_eq};
ghost use Rattle.std.specs.List.{list_any};
ghost use Rattle.std.specs.Map.{update};
ghost use Rattle.cg_lrat.specs.Accepted.{clause_fault, addition_fault, deletion_fault, without};
ghost use Rattle.cg_formula.specs.Lits.{inverse, is_in};
ghost use Rattle.cg_lrat.specs.inner.LiveTable.{live_in};
ghost use Rattle.cg_lrat.specs.Views.{body_shown, shown};

use crate::assignment::Assignment;
use crate::hint::hints_fault;
use crate::live::LiveClauses;
use crate::step_list::{BodyView, StepView};
use crate::verdict::Why;
use cg_formula::{Formula, Lit};
use std::alloc::{AllocError, Global};

/// What a step leads to.
#[derive(Clone, Copy)]
pub enum Next {
    /// The step is refused.
    Refused(Why),
    /// The step adds the empty clause.
    Accepted,
    /// The next step is to be taken.
    Later,
}

/// The live clauses, and the greatest id so far.
///
/// The assignment means nothing between two steps. It is made once, because its table has a place for each literal of
/// the formula, and a step begins by clearing it.
#[derive(Drop)]
pub struct Progress<'a> {
    live: LiveClauses<'a>,
    greatest: u64,
    assignment: Assignment,
}

impl<'a> Progress<'a> {
    ghost use Rattle.cg_lrat.specs.Accepted.{first_state, state_after};
    ghost use Rattle.cg_lrat.specs.inner.Progress.{state_of, next_by, next_of};

    /// The clauses of the formula are live.
    pub fn start(alloc: Global, formula: &'a Formula) -> Result<Self, AllocError>
        ensures { IfOk result (λ progress. state_of progress ≡ first_state formula.entry.now) }
    {
        let assignment = Assignment::new(alloc, formula.variables)?;
        let live = LiveClauses::new(alloc, &formula.clauses)?;
        Ok(Progress {
            live,
            greatest: formula.clauses.len() as u64,
            assignment,
        })
    }

    /// Takes a step.
    pub fn take(&mut self, step: StepView<'a>) -> Result<Next, AllocError>
        ensures next { IfOk result (λ next. next ≡ next_of (state_of self.old) (shown step.entry)) }
        ensures later { result ≡ Ok Next.Later → state_of self.new ≡ state_after (state_of self.old) (body_shown step.entry.body) step.entry.id }
    {
        match step.body {
            BodyView::Add(lits, hints) => self.add(step.id, lits, hints),
            BodyView::Delete(ids) => match delete(&mut self.live, ids) {
                Some(why) => Ok(Next::Refused(why)),
                None => Ok(Next::Later),
            },
        }
    }

    /// Takes an addition.
    fn add(&mut self, id: u64, clause: &'a [Lit], hints: &[u64]) -> Result<Next, AllocError>
        ensures next { IfOk result (λ next. next ≡ next_by (addition_fault (state_of self.old) id clause.entry.now hints.now) (length clause.entry.now == 0)) }
        ensures later { result ≡ Ok Next.Later
            → state_of self.new ≡ record { live = update nat_eq (live_in self.old.live) id (Some clause.entry.now); greatest = id } }
    {
        if id <= self.greatest {
            return Ok(Next::Refused(Why::UsedId(id)));
        }
        if let Some(why) = clause_fault(&self.live, &mut self.assignment, clause, hints)? {
            return Ok(Next::Refused(why));
        }
        if clause.is_empty() {
            return Ok(Next::Accepted);
        }
        self.live.put(id, clause)?;
        self.greatest = id;
        Ok(Next::Later)
    }
}

/// The fault of an addition whose id is new: a tautology, then its hints.
fn clause_fault(
    live: &LiveClauses<'_>,
    assignment: &mut Assignment,
    clause: &[Lit],
    hints: &[u64],
) -> Result<Option<Why>, AllocError>
    ensures { IfOk result (λ fault. fault ≡ clause_fault (live_in live.now) clause.now hints.now) }
{
    take_as_false(assignment, clause)?;
    if has_true(assignment, clause) {
        return Ok(Some(Why::Tautology));
    }
    hints_fault(live, assignment, hints)
}

/// Makes each literal of the clause false, and no other.
fn take_as_false(assignment: &mut Assignment, clause: &[Lit]) -> Result<(), AllocError>
    ensures { OnOk result (assignment.new ≡ map inverse clause.now) }
{
    assignment.clear();
    for lit in clause {
        assignment.make_true(lit.inverse())?;
    }
    Ok(())
}

/// Whether a literal of the clause is true.
fn has_true(assignment: &Assignment, clause: &[Lit]) -> bool
    ensures { result ≡ list_any (λ lit. is_in lit assignment.now) clause.now }
{
    clause.iter().any(|lit| assignment.has(*lit))
}

/// Takes clauses away, up to the first id that no live clause has.
fn delete(live: &mut LiveClauses<'_>, ids: &[u64]) -> Option<Why>
    ensures fault { result ≡ deletion_fault (live_in live.old) ids.now }
    ensures gone { IsNone result → live_in live.new ≡ without (live_in live.old) ids.now }
{
    for id in ids {
        if !live.remove(*id) {
            return Some(Why::UnknownId(*id));
        }
    }
    None
}
