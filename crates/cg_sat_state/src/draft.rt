//! A log on its way.

ghost use Rattle.std.specs.Prelude.{◌≡◌, ◌==◌, ◌-◌, ◌^◌, true, None, Some, false, [], ◌∷◌, ◌++◌, length, OnOk, OnErr, IfOk};
ghost use Rattle.cg_formula.specs.declared.formula.Lit.{Lit};
ghost use Rattle.cg_formula.specs.Lits.{is_in};
ghost use Rattle.cg_formula.specs.Bounds.{IsLit};
ghost use Rattle.cg_lrat.specs.Bounds.{AreNumbered, IsLog};
ghost use Rattle.cg_lrat.specs.Accepted.{clause_fault};
ghost use Rattle.cg_lrat.specs.AcceptedLog.{IsAccepted};
ghost use Rattle.cg_sat_state.specs.Store.{live_of, given, IsWithout, Draft};

use crate::clauses::Clauses;
use cg_formula::{Formula, Lit};
use cg_lrat::{Log, StepList};
use std::alloc::{AllocError, Global};
use std::marker::Model;

/// The steps of a log so far, none of which adds the empty clause, and the clauses that are live behind them: those
/// of the formula and those that were added, without those that were deleted.
#[derive(Drop)]
pub struct LogDraft<'a> {
    formula: &'a Formula,
    clauses: Clauses,
    steps: StepList,
}

impl<'a> Model for LogDraft<'a> {
    ghost use Rattle.cg_sat_state.specs.Store.{Draft};
    ghost use Rattle.cg_sat_state.specs.inner.Draft.{IsDraft};

    ghost Value = { Draft };

    ghost view = { λ s. record { formula = s.formula.now; clauses = s.clauses } };

    ghost invariant = { λ s. IsDraft s.formula.now s.steps s.clauses };
}

impl<'a> LogDraft<'a> {
    /// No step yet: the clauses of the formula are live. They take the place of what the buffer holds.
    pub fn new(alloc: Global, formula: &'a Formula, mut buffer: Clauses) -> Result<Self, AllocError>
        ensures formula { IfOk result (λ draft. draft.formula ≡ formula.entry.now) }
        ensures clauses { IfOk result (λ draft. draft.clauses ≡ given formula.entry.now) }
    {
        put_clauses(&mut buffer, formula)?;
        Ok(LogDraft {
            formula,
            clauses: buffer,
            steps: StepList::new(alloc),
        })
    }

    /// The clauses that are live.
    pub fn clauses(&self) -> &Clauses
        ensures { result.now ≡ self.now.clauses }
    {
        &self.clauses
    }

    /// Adds a clause, which has no fault under its hints. Where memory is wanting nothing changes.
    pub fn add(&mut self, lits: Vec<Lit>, hints: Vec<u64>) -> Result<(), AllocError>
        requires fine { clause_fault (live_of self.old.clauses) lits.items hints.items ≡ None }
        requires lits { (lit : Lit) → is_in lit lits.items ≡ true → IsLit (2 ^ 31 - 1) lit }
        requires full { (length lits.items == 0) ≡ false }
        ensures formula { self.new.formula ≡ self.old.formula }
        ensures added { OnOk result (self.new.clauses ≡ self.old.clauses ++ Some lits.items ∷ []) }
        ensures same { OnErr result (self.new.clauses ≡ self.old.clauses) }
    {
        let count = self.clauses.len();
        let id = count as u64 + 1;
        let line = self.steps.len() as u64 + 1;
        self.clauses.push(lits.as_slice())?;
        match self.steps.add(line, id, lits.as_slice(), hints.as_slice()) {
            Ok(()) => Ok(()),
            Err(error) => {
                self.clauses.truncate(count);
                Err(error)
            }
        }
    }

    /// Deletes the clause at a place, if there is one. Where memory is wanting nothing changes.
    pub fn delete(&mut self, place: usize) -> Result<(), AllocError>
        ensures formula { self.new.formula ≡ self.old.formula }
        ensures deleted { OnOk result (IsWithout self.old.clauses place self.new.clauses) }
        ensures same { OnErr result (self.new.clauses ≡ self.old.clauses) }
    {
        let Some(_) = self.clauses.get(place) else {
            return Ok(());
        };
        let id = self.clauses.len() as u64;
        let line = self.steps.len() as u64 + 1;
        self.steps.delete(line, id, &[self.clauses.id(place)])?;
        self.clauses.remove(place);
        Ok(())
    }

    /// The log that adds the empty clause, and the buffer, of which nothing is said.
    pub fn finish(self, hints: Vec<u64>) -> Result<(Log, Clauses), AllocError>
        requires fine { clause_fault (live_of self.clauses) [] hints.items ≡ None }
        ensures accepted { IfOk result (λ made. IsAccepted self.entry.formula made.0) }
        ensures log { IfOk result (λ made. IsLog made.0) }
        ensures numbered { IfOk result (λ made. AreNumbered made.0.steps) }
    {
        let id = self.clauses.len() as u64 + 1;
        let LogDraft {
            formula: _,
            clauses,
            mut steps,
        } = self;
        let line = steps.len() as u64 + 1;
        steps.add(line, id, &[], hints.as_slice())?;
        Ok((Log { steps }, clauses))
    }

    /// The buffer with its clauses, where no log is wanted.
    pub fn into_buffer(self) -> Clauses
        ensures { result ≡ self.entry.clauses }
    {
        self.clauses
    }
}

/// Puts the clauses of a formula in the place of others.
fn put_clauses(clauses: &mut Clauses, formula: &Formula) -> Result<(), AllocError>
    ensures { OnOk result (clauses.new ≡ given formula.now) }
{
    clauses.clear();
    for place in 0..formula.clauses.len() {
        clauses.push(formula.clauses.at(place))?;
    }
    Ok(())
}
