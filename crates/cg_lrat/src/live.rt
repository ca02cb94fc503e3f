//! The live clauses of a check, by their ids.

ghost use Rattle.std.specs.Prelude.{◌≡◌, OnOk, IfOk, IsSome, MatchOption, None, List, nat_eq, replicate, true};
ghost use Rattle.std.specs.Bool.{MatchBool};
ghost use Rattle.std.specs.Map.{update};
ghost use Rattle.cg_formula.specs.declared.formula.Clause.{Clause};
ghost use Rattle.cg_lrat.specs.Accepted.{with_clauses};
ghost use Rattle.cg_lrat.specs.inner.LiveTable.{is_kept, kept_clause};

use crate::added::AddedClauses;
use cg_formula::{ClauseList, Lit};
use std::alloc::{AllocError, Global};

/// The live clauses. They are borrowed from the formula and the log, and not copied.
///
/// Those of the formula have the ids from 1 on, so that one look at a list tells whether such a clause is live still, and
/// the table of ids holds added clauses alone.
#[derive(Drop)]
pub struct LiveClauses<'a> {
    given: &'a ClauseList,
    // For each clause of the formula whether it is live still.
    kept: Vec<bool>,
    added: AddedClauses<'a>,
}

impl<'a> LiveClauses<'a> {
    ghost use Rattle.cg_lrat.specs.inner.LiveTable.{live_in};

    /// These clauses are live, under the ids from 1 on.
    pub fn new(alloc: Global, given: &'a ClauseList) -> Result<Self, AllocError>
        ensures { IfOk result (λ live. live_in live ≡ with_clauses 1 given.entry.now (λ _. None)) }
    {
        let kept = all_kept(alloc, given.len())?;
        Ok(LiveClauses {
            given,
            kept,
            added: AddedClauses::new(alloc),
        })
    }

    /// The clause with this id.
    pub fn get(&self, id: u64) -> Option<&'a [Lit]>
        ensures clause { MatchOption result (live_in self.now id ≡ None) (λ clause. live_in self.now id ≡ Some clause.now) }
    {
        match kept_clause(self.given, self.kept.as_slice(), id) {
            Some(clause) => Some(clause),
            None => self.added.get(id),
        }
    }

    /// The clause is live under this id.
    pub fn put(&mut self, id: u64, clause: &'a [Lit]) -> Result<(), AllocError>
        ensures { OnOk result (live_in self.new ≡ update nat_eq (live_in self.old) id (Some clause.entry.now)) }
    {
        forget(&mut self.kept, id);
        self.added.put(id, clause)
    }

    /// No clause is live under this id any more. Answers whether one was.
    pub fn remove(&mut self, id: u64) -> bool
        ensures was { MatchBool result (IsSome (live_in self.old id)) (live_in self.old id ≡ None) }
        ensures removed { live_in self.new ≡ update nat_eq (live_in self.old) id None }
    {
        let given = kept_clause(self.given, self.kept.as_slice(), id).is_some();
        forget(&mut self.kept, id);
        let added = self.added.remove(id);
        given || added
    }
}

/// A mark for each of so many clauses.
fn all_kept(alloc: Global, count: usize) -> Result<Vec<bool>, AllocError>
    ensures { IfOk result (λ marks. marks.items ≡ replicate count true) }
{
    vec![in alloc; true; count]
}

/// The clause of the formula with this id, if it is live still.
fn kept_clause<'a>(given: &'a ClauseList, kept: &[bool], id: u64) -> Option<&'a [Lit]>
    ensures { MatchOption result (kept_clause given.entry.now kept.now id ≡ None) (λ clause. kept_clause given.entry.now kept.now id ≡ Some clause.now) }
{
    if !is_kept(kept, id) {
        return None;
    }
    given.get((id - 1) as usize)
}

/// Whether the clause of the formula with this id is live still.
fn is_kept(kept: &[bool], id: u64) -> bool
    ensures { result ≡ is_kept kept.now id }
{
    if id == 0 {
        return false;
    }
    match kept.get((id - 1) as usize) {
        Some(live) => *live,
        None => false,
    }
}

/// The clause of the formula with this id is not live any more.
fn forget(kept: &mut [bool], id: u64)
    ensures { (clauses : List Clause) → kept_clause clauses kept.new ≡ update nat_eq (kept_clause clauses kept.old) id None }
{
    if id > 0 && id <= kept.len() as u64 {
        kept[(id - 1) as usize] = false;
    }
}
