//! The steps of a log, their literals in one list and their ids in another.

ghost use Rattle.std.specs.Prelude.{◌≡◌, ◌+◌, ◌<◌, ◌≤◌, ◌^◌, ◌++◌, ◌∷◌, [], Some, length, IfOk, OnOk, OnErr};
ghost use Rattle.std.specs.List.{slice_get};
ghost use Rattle.cg_lrat.specs.declared.log.Body.TheVariants.{Add, Delete};
ghost use Rattle.cg_lrat.specs.Views.{body_shown, shown};
ghost use Rattle.cg_lrat.specs.inner.StepList.{FitsIn, IsWithin, body_by, part};

use crate::log::{Body, Step};
use cg_formula::Lit;
use std::alloc::{AllocError, Global};
use std::marker::Model;

/// What a step does. Its parts are lent by the list that the step stands in.
#[derive(Clone, Copy)]
pub enum BodyView<'a> {
    /// Adds a clause of these literals, with these hints.
    Add(&'a [Lit], &'a [u64]),
    /// Takes the clauses with these ids away.
    Delete(&'a [u64]),
}

/// A step of a list.
#[derive(Clone, Copy)]
pub struct StepView<'a> {
    /// The line of the text that it stands on.
    pub line: u64,
    /// The id of the clause that is added.
    pub id: u64,
    /// What is done.
    pub body: BodyView<'a>,
}

/// A part of a list.
#[derive(Clone, Copy, Debug)]
struct Span {
    from: u32,
    to: u32,
}

/// Where a step stands.
#[derive(Clone, Copy, Debug)]
struct Place {
    line: u64,
    id: u64,
    lits: Span,
    ids: Span,
    // Whether the step adds a clause. A deletion has no literals.
    adds: bool,
}

/// Steps, in order. Contracts see the list of them.
///
/// All literals stand one behind the other, and so do all ids. Why not a list of `Step`s: each would have two places of
/// its own in memory, which cost more than the few literals and ids that most steps have.
///
/// There are at most 2^32 - 1 literals, and as many ids: for more, memory is wanting.
#[derive(Debug, Drop)]
pub struct StepList {
    lits: Vec<Lit>,
    ids: Vec<u64>,
    places: Vec<Place>,
}

impl Model for StepList {
    ghost use Rattle.std.specs.Prelude.{List, length};
    ghost use Rattle.std.specs.List.{AllByRecursion};
    ghost use Rattle.cg_lrat.specs.declared.log.Step.{Step};
    ghost use Rattle.cg_lrat.specs.inner.StepList.{IsWithin, steps_in};

    ghost Value = { List Step };

    ghost view = { λ s. steps_in s.lits.items s.ids.items s.places.items };

    ghost invariant = { λ s. AllByRecursion (IsWithin (length s.lits.items) (length s.ids.items)) s.places.items };
}

impl StepList {
    /// No steps yet; takes no memory.
    pub fn new(alloc: Global) -> Self
        ensures { result ≡ [] }
    {
        StepList {
            lits: Vec::new(alloc),
            ids: Vec::new(alloc),
            places: Vec::new(alloc),
        }
    }

    /// How many steps there are.
    pub fn len(&self) -> usize
        ensures count { result ≡ length self.now }
        ensures few { result + 1 < 2 ^ 63 }
    {
        self.places.as_slice().len()
    }

    /// The step at a place.
    pub fn at(&self, place: usize) -> StepView<'_>
        requires { place < length self.now }
        ensures step { slice_get self.now place ≡ Some (shown result) }
    {
        let at = self.places[place];
        StepView {
            line: at.line,
            id: at.id,
            body: body_in(self.lits.as_slice(), self.ids.as_slice(), at),
        }
    }

    /// Puts a step behind the others. Where memory is wanting they stay as they are.
    pub fn push(&mut self, step: &Step) -> Result<(), AllocError>
        ensures added { OnOk result (self.new ≡ self.old ++ step.now ∷ []) }
        ensures same { OnErr result (self.new ≡ self.old) }
    {
        match &step.body {
            Body::Add(clause, hints) => {
                self.add(step.line, step.id, clause.lits.as_slice(), hints.as_slice())
            }
            Body::Delete(ids) => self.delete(step.line, step.id, ids.as_slice()),
        }
    }

    /// Puts an addition behind the others. Where memory is wanting they stay as they are.
    pub fn add(&mut self, line: u64, id: u64, lits: &[Lit], hints: &[u64]) -> Result<(), AllocError>
        ensures added { OnOk result (self.new ≡ self.old ++ record { line = line; id = id; body = Add (record { lits = lits.now }) hints.now } ∷ []) }
        ensures same { OnErr result (self.new ≡ self.old) }
    {
        self.put(line, id, true, lits, hints)
    }

    /// Puts a deletion behind the others. Where memory is wanting they stay as they are.
    pub fn delete(&mut self, line: u64, id: u64, ids: &[u64]) -> Result<(), AllocError>
        ensures added { OnOk result (self.new ≡ self.old ++ record { line = line; id = id; body = Delete ids.now } ∷ []) }
        ensures same { OnErr result (self.new ≡ self.old) }
    {
        self.put(line, id, false, &[], ids)
    }

    /// Puts a step behind the others, an addition or a deletion.
    fn put(
        &mut self,
        line: u64,
        id: u64,
        adds: bool,
        lits: &[Lit],
        ids: &[u64],
    ) -> Result<(), AllocError>
        ensures added { OnOk result (self.new ≡ self.old ++ record { line = line; id = id; body = body_by adds lits.now ids.now } ∷ []) }
        ensures same { OnErr result (self.new ≡ self.old) }
    {
        let lits_span = span_behind(self.lits.len(), lits.len())?;
        let ids_span = span_behind(self.ids.len(), ids.len())?;
        self.lits.extend_from_slice(lits)?;
        self.ids.extend_from_slice(ids)?;
        self.places.push(Place {
            line,
            id,
            lits: lits_span,
            ids: ids_span,
            adds,
        })?;
        Ok(())
    }
}

/// The span of so many parts, put behind so many others.
fn span_behind(others: usize, count: usize) -> Result<Span, AllocError>
    ensures { IfOk result (λ span. span ≡ record { from = others; to = others + count }) }
{
    let most = u32::MAX as usize;
    if others > most || count > most - others {
        return Err(AllocError);
    }
    Ok(Span {
        from: others as u32,
        to: (others + count) as u32,
    })
}

/// What the step of a place does.
fn body_in<'a>(lits: &'a [Lit], ids: &'a [u64], place: Place) -> BodyView<'a>
    requires { IsWithin (length lits.now) (length ids.now) place }
    ensures { body_shown result ≡ body_by place.adds (part lits.now place.lits) (part ids.now place.ids) }
{
    let ids = ids_in(ids, place.ids);
    if !place.adds {
        return BodyView::Delete(ids);
    }
    BodyView::Add(lits_in(lits, place.lits), ids)
}

/// The literals of a part.
fn lits_in(lits: &[Lit], span: Span) -> &[Lit]
    requires { FitsIn (length lits.now) span }
    ensures { result.now ≡ part lits.now span }
{
    &lits[span.from as usize..span.to as usize]
}

/// The ids of a part.
fn ids_in(ids: &[u64], span: Span) -> &[u64]
    requires { FitsIn (length ids.now) span }
    ensures { result.now ≡ part ids.now span }
{
    &ids[span.from as usize..span.to as usize]
}
