//! The clauses that a log added, by their ids.

ghost use Rattle.std.specs.Prelude.{◌≡◌, OnOk, IsSome, MatchOption, nat_eq};
ghost use Rattle.std.specs.Bool.{MatchBool};
ghost use Rattle.std.specs.Map.{update};

use cg_formula::Lit;
use std::alloc::{AllocError, Global};
use std::collections::HashMap;

/// Added clauses that are live. They are borrowed from the log, and not copied.
#[derive(Drop)]
pub struct AddedClauses<'a> {
    by_id: HashMap<u64, &'a [Lit]>,
}

impl<'a> AddedClauses<'a> {
    ghost use Rattle.cg_lrat.specs.inner.LiveTable.{added_in};

    /// No clause is live.
    pub fn new(alloc: Global) -> Self
        ensures { added_in result ≡ (λ _. None) }
    {
        AddedClauses {
            by_id: HashMap::new(alloc),
        }
    }

    /// The clause with this id.
    pub fn get(&self, id: u64) -> Option<&'a [Lit]>
        ensures clause { MatchOption result (added_in self.now id ≡ None) (λ clause. added_in self.now id ≡ Some clause.now) }
    {
        self.by_id.get(&id).copied()
    }

    /// The clause is live under this id, in the place of one that was.
    pub fn put(&mut self, id: u64, clause: &'a [Lit]) -> Result<(), AllocError>
        ensures { OnOk result (added_in self.new ≡ update nat_eq (added_in self.old) id (Some clause.entry.now)) }
    {
        self.by_id.insert(id, clause)?;
        Ok(())
    }

    /// No clause is live under this id any more. Answers whether one was.
    pub fn remove(&mut self, id: u64) -> bool
        ensures was { MatchBool result (IsSome (added_in self.old id)) (added_in self.old id ≡ None) }
        ensures removed { added_in self.new ≡ update nat_eq (added_in self.old) id None }
    {
        self.by_id.remove(&id).is_some()
    }
}
