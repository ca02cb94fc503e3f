//! The clauses that a search works with.

ghost use Rattle.std.specs.Prelude.{◌≡◌, ◌+◌, ◌<◌, ◌^◌, List, Some, None, true, [], ◌∷◌, ◌++◌, length, take, MatchOption, IfOk, OnOk, OnErr};
ghost use Rattle.cg_formula.specs.declared.formula.Lit.{Lit};
ghost use Rattle.cg_sat_state.specs.Store.{clause_at, IsWithout};

use cg_formula::Lit;
use std::alloc::{AllocError, Global};
use std::marker::Model;

/// Where the literals of a clause stand. A place has 32 bits, so that there are at most 2^32 - 1 literals: for more,
/// memory is wanting.
#[derive(Clone, Copy)]
struct Span {
    from: u32,
    to: u32,
}

/// The span of a clause that was taken away: it ends before it begins.
const GONE: Span = Span { from: 1, to: 0 };

/// Clauses by place, their literals one behind the other in one buffer that is kept when they are cleared.
///
/// A clause that was taken away leaves its place empty, so that places and the ids of a log go together. Contracts
/// see a list with a clause or none at each place.
#[derive(Drop)]
pub struct Clauses {
    lits: Vec<Lit>,
    spans: Vec<Span>,
}

impl Model for Clauses {
    ghost use Rattle.std.specs.Prelude.{length};
    ghost use Rattle.std.specs.List.{AllByRecursion};
    ghost use Rattle.cg_sat_state.specs.Store.{Store};
    ghost use Rattle.cg_sat_state.specs.inner.Arena.{store_of, IsWithin};

    ghost Value = { Store };

    ghost view = { λ s. store_of s.lits.items s.spans.items };

    ghost invariant = { λ s. AllByRecursion (IsWithin (length s.lits.items)) s.spans.items };
}

impl Clauses {
    /// No clause.
    pub fn new(alloc: Global) -> Self
        ensures { result ≡ [] }
    {
        Clauses {
            lits: Vec::new(alloc),
            spans: Vec::new(alloc),
        }
    }

    /// How many places there are.
    pub fn len(&self) -> usize
        ensures count { result ≡ length self.now }
        ensures few { result + 1 < 2 ^ 63 }
    {
        self.spans.as_slice().len()
    }

    /// The id in a log of the clause at a place.
    pub fn id(&self, place: usize) -> u64
        requires { place < length self.now }
        ensures { result ≡ place + 1 }
    {
        let _ = self.len();
        place as u64 + 1
    }

    /// The clause at a place.
    pub fn get(&self, place: usize) -> Option<&[Lit]>
        ensures { MatchOption result (clause_at self.now place ≡ None) (λ lits. clause_at self.now place ≡ Some lits.now) }
    {
        if place >= self.spans.len() {
            return None;
        }
        let span = self.spans[place];
        if span.to < span.from {
            return None;
        }
        Some(&self.lits.as_slice()[span.from as usize..span.to as usize])
    }

    /// Puts a clause behind the others. Where memory is wanting nothing changes.
    pub(crate) fn push(&mut self, lits: &[Lit]) -> Result<(), AllocError>
        ensures added { OnOk result (self.new ≡ self.old ++ Some lits.now ∷ []) }
        ensures same { OnErr result (self.new ≡ self.old) }
    {
        let span = span_behind(self.lits.len(), lits.len())?;
        append(&mut self.lits, lits)?;
        self.spans.push(span)?;
        Ok(())
    }

    /// Keeps so many places, and takes the clauses behind them away with theirs.
    pub(crate) fn truncate(&mut self, count: usize)
        ensures { self.new ≡ take count self.old }
    {
        self.spans.truncate(count);
    }

    /// Takes the clause at a place away.
    pub(crate) fn remove(&mut self, place: usize)
        ensures { IsWithout self.old place self.new }
    {
        if place < self.spans.len() {
            self.spans[place] = GONE;
        }
    }

    /// Takes all clauses away, and their places. The buffers stay.
    pub(crate) fn clear(&mut self)
        ensures { self.new ≡ [] }
    {
        self.spans.clear();
        self.lits.clear();
    }
}

/// Puts literals behind others, one by one: most clauses have so few that a copy of them as one block takes longer. Where memory
/// is wanting some of them may stand there.
fn append(lits: &mut Vec<Lit>, more: &[Lit]) -> Result<(), AllocError>
    ensures added { OnOk result (lits.new.items ≡ lits.old.items ++ more.now) }
    ensures some { OnErr result ((front : List Lit) × (lits.new.items ≡ lits.old.items ++ front)) }
{
    for lit in more {
        lits.push(*lit)?;
    }
    Ok(())
}

/// The span of a clause of so many literals, put behind so many others.
fn span_behind(others: usize, count: usize) -> Result<Span, AllocError>
    ensures { IfOk result (λ span. span ≡ record { from = others; to = others + count }) }
{
    let most = u32::MAX as usize;
    if others > most || count > most - others {
        return Err(AllocError);
    }
    Ok(Span {
        from: others as u32,
        to: (others + count) as u32,
    })
}
