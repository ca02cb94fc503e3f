//! Clauses in one list of literals.

ghost use Rattle.std.specs.Prelude.{◌≡◌, ◌<◌, ◌≤◌, ◌++◌, ◌∷◌, [], List, Some, None, length, IfOk, MatchOption, if◌then◌else◌, is_ok};
ghost use Rattle.std.specs.List.{slice_get, slice_range};
ghost use Rattle.cg_formula.specs.declared.formula.Lit.{Lit};
ghost use Rattle.cg_formula.specs.inner.ClauseList.{AreEnds, clauses_of, start_at};

use crate::formula::Lit;
use std::alloc::{AllocError, Global};
use std::marker::Model;

/// Clauses, in order. Contracts see the list of them.
///
/// All literals stand one behind the other, with the place where each clause ends. Why not a list of `Clause`s: each
/// would have a place of its own in memory, which costs more than the two or three literals that most clauses have.
///
/// There are at most 2^32 - 1 literals: for more, memory is wanting.
#[derive(Debug, Drop)]
pub struct ClauseList {
    lits: Vec<Lit>,
    ends: Vec<u32>,
}

impl Model for ClauseList {
    ghost use Rattle.std.specs.Prelude.{List, length};
    ghost use Rattle.cg_formula.specs.declared.formula.Clause.{Clause};
    ghost use Rattle.cg_formula.specs.inner.ClauseList.{AreEnds, clauses_of};

    ghost Value = { List Clause };

    ghost view = { λ s. clauses_of 0 s.lits.items s.ends.items };

    ghost invariant = { λ s. AreEnds 0 (length s.lits.items) s.ends.items };
}

impl ClauseList {
    /// No clauses yet; takes no memory.
    pub fn new(alloc: Global) -> Self
        ensures { result ≡ [] }
    {
        ClauseList {
            lits: Vec::new(alloc),
            ends: Vec::new(alloc),
        }
    }

    /// No clauses yet, and room for so many, with so many literals in all.
    pub fn with_capacity(alloc: Global, clauses: usize, lits: usize) -> Result<Self, AllocError>
        ensures { IfOk result (λ made. made ≡ []) }
    {
        let lits = Vec::with_capacity(alloc, lits)?;
        let ends = Vec::with_capacity(alloc, clauses)?;
        Ok(ClauseList { lits, ends })
    }

    /// The clauses that end at these places of a list of literals.
    pub(crate) fn from_ends(lits: Vec<Lit>, ends: Vec<u32>) -> Self
        requires { AreEnds 0 (length lits.items) ends.items }
        ensures { result ≡ clauses_of 0 lits.items ends.items }
    {
        ClauseList { lits, ends }
    }

    /// How many clauses there are.
    pub fn len(&self) -> usize
        ensures count { result ≡ length self.now }
    {
        self.ends.as_slice().len()
    }

    /// The literals of the clause at a place.
    pub fn at(&self, place: usize) -> &[Lit]
        requires { place < length self.now }
        ensures clause { slice_get self.now place ≡ Some (record { lits = result.now }) }
    {
        clause_in(self.lits.as_slice(), self.ends.as_slice(), place)
    }

    /// The literals of the clause at a place, if there is one.
    pub fn get(&self, place: usize) -> Option<&[Lit]>
        ensures clause { MatchOption result (slice_get self.now place ≡ None) (λ lits. slice_get self.now place ≡ Some (record { lits = lits.now })) }
    {
        if place < self.len() {
            Some(self.at(place))
        } else {
            None
        }
    }

    /// Puts a clause behind the others, or leaves them as they are where memory is wanting.
    pub fn push(&mut self, lits: &[Lit]) -> Result<(), AllocError>
        ensures clauses { self.new ≡ (if is_ok result then self.old ++ record { lits = lits.now } ∷ [] else self.old) }
    {
        let from = self.lits.len();
        self.lits.extend_from_slice(lits)?;
        match push_end(self.lits.as_slice(), &mut self.ends) {
            Ok(()) => Ok(()),
            Err(error) => {
                self.lits.truncate(from);
                Err(error)
            }
        }
    }
}

/// The literals of the clause at a place, where the clauses in a list of literals end at `ends`.
fn clause_in<'a>(lits: &'a [Lit], ends: &[u32], place: usize) -> &'a [Lit]
    requires ends { AreEnds 0 (length lits.now) ends.now }
    requires place { place < length ends.now }
    ensures { slice_get (clauses_of 0 lits.now ends.now) place ≡ Some (record { lits = result.now }) }
{
    let (from, to) = span(lits.len(), ends, place);
    &lits[from..to]
}

/// Where the clause of a place begins and ends among so many literals.
fn span(count: usize, ends: &[u32], place: usize) -> (usize, usize)
    requires ends { AreEnds 0 count ends.now }
    requires place { place < length ends.now }
    ensures ordered { result.0 ≤ result.1 }
    ensures within { result.1 ≤ count }
    ensures stands { (lits : List Lit) → slice_get (clauses_of 0 lits ends.now) place ≡ Some (record { lits = slice_range lits result.0 result.1 }) }
{
    let _ = count;
    let from = start(ends, place);
    let to = ends[place] as usize;
    (from, to)
}

/// Where the clause of a place begins.
fn start(ends: &[u32], place: usize) -> usize
    requires { place < length ends.now }
    ensures { result ≡ start_at 0 ends.now place }
{
    if place == 0 {
        return 0;
    }
    ends[place - 1] as usize
}

/// Puts where a clause ends behind other ends: behind the last of these literals. It is to be less than 2^32.
pub(crate) fn push_end(lits: &[Lit], ends: &mut Vec<u32>) -> Result<(), AllocError>
    ensures { ends.new.items ≡ (if is_ok result then ends.old.items ++ length lits.now ∷ [] else ends.old.items) }
{
    let end = lits.len();
    if end > u32::MAX as usize {
        return Err(AllocError);
    }
    ends.push(end as u32)?;
    Ok(())
}
