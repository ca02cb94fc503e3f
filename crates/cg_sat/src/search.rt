//! The search.

ghost use Rattle.std.specs.Prelude.{◌≡◌, ◌+◌, ◌<◌, ◌≤◌, ◌^◌, ◌∷◌, ◌++◌, [], true, Some, None, length, OnOk, IfOk};
ghost use Rattle.std.specs.Option.{IfSome, IfNone};
ghost use Rattle.std.specs.Bool.{IsTrue};
ghost use Rattle.cg_formula.specs.declared.formula.Lit.{Lit};
ghost use Rattle.cg_formula.specs.declared.formula.Formula.{Formula};
ghost use Rattle.cg_formula.specs.Bounds.{IsFormula};
ghost use Rattle.cg_formula.specs.Lits.{is_in};
ghost use Rattle.cg_lrat.specs.Accepted.{clause_fault};
ghost use Rattle.cg_sat.specs.Answer.{IsShown, IsExact, IsWritableAnswer};
ghost use Rattle.cg_sat_state.specs.Store.{given, live_of};
ghost use Rattle.cg_sat.specs.inner.Learn.{Asserts};
ghost use Rattle.cg_sat.specs.inner.Worth.{worth};
ghost use Rattle.cg_sat.specs.inner.Search.{IsSearch, Grows, HasPrefix, IsConflict};
ghost use Rattle.cg_sat.specs.inner.End.{IsEnd, IsTurn};

use crate::choose::{Choice, choose, open_lit};
use crate::forget::forget;
use crate::learn::{Learnt, Lesson, Work, learn};
use crate::problem::Problem;
use crate::propagate::{imply, propagate};
use crate::scan::{Found, scan};
use crate::undo::cut_to;
use crate::units::add_units;
use cg_formula::Formula;
use cg_lrat::Log;
use cg_sat_guide::guide::Guide;
use cg_sat_state::clauses::Clauses;
use cg_sat_state::draft::LogDraft;
use cg_sat_state::trail::{Entry, Trail};
use std::alloc::{AllocError, Global};

/// What a formula is found to be.
#[derive(Drop)]
pub enum Solved {
    /// Satisfiable: these bits satisfy it, the first one being that of the variable 1.
    Sat(Vec<bool>),
    /// Unsatisfiable, by this log.
    Unsat(Log),
}

/// What comes of a turn in which nothing followed.
#[derive(Drop)]
pub enum Turn {
    /// The formula is satisfied by these bits.
    Satisfied(Vec<bool>),
    /// The clause at this place is false.
    Conflict(usize),
    /// A literal was decided.
    Decided,
}

/// How a search ends.
#[derive(Drop)]
pub enum End {
    /// With bits that satisfy the formula.
    Satisfied(Vec<bool>),
    /// With the hints of the empty clause.
    Refuted(Vec<u64>),
}

/// Adds a learnt clause, cuts the trail, and makes the clause's first literal true.
fn turn_back(
    draft: &mut LogDraft<'_>,
    trail: &mut Trail,
    guide: &mut Guide,
    learnt: Learnt,
    count: usize,
) -> Result<(), AllocError>
    requires search { IsSearch count draft.old.clauses trail.old }
    requires fine { clause_fault (live_of draft.old.clauses) learnt.lits.items learnt.hints.items ≡ None }
    requires asserts { Asserts draft.old.clauses trail.old learnt.cut learnt.lits.items }
    requires few { count ≤ 2 ^ 30 }
    ensures formula { draft.new.formula ≡ draft.old.formula }
    ensures prefix { (formula : Formula) → HasPrefix formula draft.old.clauses → OnOk result (HasPrefix formula draft.new.clauses) }
    ensures search { OnOk result (IsSearch count draft.new.clauses trail.new) }
    ensures worth { OnOk result (worth (count + 1) trail.old < worth (count + 1) trail.new) }
{
    let _ = count;
    let Learnt { lits, hints, cut } = learnt;
    let first = lits[0];
    let place = draft.clauses().len();
    guide.unsettled |= lits.len() == 1;
    if place > u32::MAX as usize {
        return Err(AllocError);
    }
    guide.enter(place, lits.as_slice())?;
    draft.add(lits, hints)?;
    cut_to(trail, &mut guide.order, cut)?;
    trail.push(Entry {
        lit: first,
        reason: Some(place as u32),
    })?;
    guide.order.decay();
    guide.merits.decay();
    guide.taken = guide.taken.min(cut);
    Ok(())
}

/// Watches a clause, or takes what follows from it. Answers whether it is false.
fn begin_at(
    trail: &mut Trail,
    clauses: &Clauses,
    guide: &mut Guide,
    place: usize,
    count: usize,
) -> Result<bool, AllocError>
    requires within { place < length clauses.now }
    requires search { IsSearch count clauses.now trail.old }
    ensures grows { OnOk result (Grows count clauses.now trail.old trail.new) }
    ensures conflict { IfOk result (λ found. IsTrue found → IsConflict clauses.now trail.new place) }
{
    let Some(clause) = clauses.get(place) else {
        return Ok(false);
    };
    let Some(first) = open_lit(trail, clause) else {
        return Ok(true);
    };
    match scan(trail, clause, first) {
        Found::Another(second) => guide.watches.add(place, clause, first, second)?,
        Found::One => {
            if clause.len() == 1 {
                guide.set_unit(first, place)?;
            }
            if !trail.has(first) && !trail.has(first.inverse()) {
                imply(trail, clauses, first, place, count)?;
            }
        }
        Found::Nothing => {}
    }
    Ok(false)
}

/// Watches all clauses. Answers one that is false.
fn begin(
    trail: &mut Trail,
    clauses: &Clauses,
    guide: &mut Guide,
    count: usize,
) -> Result<Option<usize>, AllocError>
    requires search { IsSearch count clauses.now trail.old }
    ensures grows { OnOk result (Grows count clauses.now trail.old trail.new) }
    ensures conflict { IfOk result (λ found. IfSome found (IsConflict clauses.now trail.new)) }
{
    for place in 0..clauses.len() {
        if begin_at(trail, clauses, guide, place, count)? {
            return Ok(Some(place));
        }
    }
    guide.watches.shorts.pack()?;
    propagate(trail, clauses, guide, count)
}

/// Learns from a clause that is false. Answers the hints of the empty clause, if it is that one that is learnt.
fn resolve_conflict(
    problem: &Problem<'_>,
    draft: &mut LogDraft<'_>,
    trail: &mut Trail,
    work: &mut Work,
    guide: &mut Guide,
    place: usize,
) -> Result<Option<Vec<u64>>, AllocError>
    requires prefix { HasPrefix problem.now.formula.now draft.old.clauses }
    requires search { IsSearch problem.now.count draft.old.clauses trail.old }
    requires conflict { IsConflict draft.old.clauses trail.old place }
    requires marks { problem.now.count ≤ length work.old.marks.items }
    requires few { problem.now.count ≤ 2 ^ 30 }
    ensures formula { draft.new.formula ≡ draft.old.formula }
    ensures marks { length work.new.marks.items ≡ length work.old.marks.items }
    ensures refuted { IfOk result (λ found. IfSome found (λ hints. clause_fault (live_of draft.new.clauses) [] hints.items ≡ None)) }
    ensures prefix { IfOk result (λ found. IfNone found (HasPrefix problem.now.formula.now draft.new.clauses)) }
    ensures search { IfOk result (λ found. IfNone found (IsSearch problem.now.count draft.new.clauses trail.new)) }
    ensures worth { IfOk result (λ found. IfNone found (worth (problem.now.count + 1) trail.old < worth (problem.now.count + 1) trail.new)) }
{
    match learn(
        problem.alloc,
        work,
        guide,
        draft.clauses(),
        trail.entries(),
        place,
    )? {
        Lesson::Empty(hints) => Ok(Some(hints)),
        Lesson::Clause(learnt) => {
            turn_back(draft, trail, guide, learnt, problem.count)?;
            if guide.merits.is_due() {
                forget(problem, draft, guide, trail.entries())?;
            }
            Ok(None)
        }
    }
}

/// Decides a literal, where nothing follows.
fn decide(
    problem: &Problem<'_>,
    draft: &mut LogDraft<'_>,
    trail: &mut Trail,
    trues: &mut Trail,
    guide: &mut Guide,
) -> Result<Turn, AllocError>
    requires formula { IsFormula problem.now.formula.now }
    requires prefix { HasPrefix problem.now.formula.now draft.old.clauses }
    requires search { IsSearch problem.now.count draft.old.clauses trail.old }
    requires few { problem.now.count ≤ 2 ^ 30 }
    ensures formula { draft.new.formula ≡ draft.old.formula }
    ensures prefix { OnOk result (HasPrefix problem.now.formula.now draft.new.clauses) }
    ensures turn { IfOk result (IsTurn problem.now.formula.now problem.now.count draft.new.clauses trail.old trail.new) }
{
    match choose(problem, trail, draft.clauses(), guide)? {
        Choice::Done(bits) => Ok(Turn::Satisfied(bits)),
        Choice::Refute(place) => Ok(Turn::Conflict(place)),
        Choice::Decide(lit) => {
            add_units(problem, draft, guide, trues, trail.entries())?;
            trail.push(Entry { lit, reason: None })?;
            Ok(Turn::Decided)
        }
    }
}

/// Searches for bits that satisfy the formula, from no literal that is true. Each turn learns from a clause that is
/// false, or decides a literal where nothing follows.
fn search(
    problem: &Problem<'_>,
    draft: &mut LogDraft<'_>,
    trail: &mut Trail,
    trues: &mut Trail,
    work: &mut Work,
    guide: &mut Guide,
) -> Result<End, AllocError>
    requires formula { IsFormula problem.now.formula.now }
    requires clauses { draft.old.clauses ≡ given problem.now.formula.now }
    requires trail { trail.old ≡ [] }
    requires count { problem.now.count ≡ problem.now.formula.now.variables + 1 }
    requires marks { problem.now.count ≤ length work.old.marks.items }
    ensures formula { draft.new.formula ≡ draft.old.formula }
    ensures end { IfOk result (IsEnd problem.now.formula.now draft.new.clauses) }
{
    let count = problem.count;
    let mut found = begin(trail, draft.clauses(), guide, count)?;
    'search: loop {
        if let Some(place) = found {
            if let Some(hints) = resolve_conflict(problem, draft, trail, work, guide, place)? {
                return Ok(End::Refuted(hints));
            }
            found = propagate(trail, draft.clauses(), guide, count)?;
        } else {
            match decide(problem, draft, trail, trues, guide)? {
                Turn::Satisfied(bits) => return Ok(End::Satisfied(bits)),
                Turn::Conflict(place) => found = Some(place),
                Turn::Decided => found = propagate(trail, draft.clauses(), guide, count)?,
            }
        }
    }
}

/// A solver. It keeps the buffers of its searches, so that each costs what its formula and its log are, and no more.
///
/// Each search is on its own: no answer depends on those before.
#[derive(Drop)]
pub struct Solver {
    alloc: Global,
    clauses: Clauses,
    trail: Trail,
    // The literals that a unit clause's hints make true.
    trues: Trail,
    work: Work,
    guide: Guide,
}

impl Solver {
    /// A solver with empty buffers.
    pub fn new(alloc: Global) -> Self {
        Solver {
            alloc,
            clauses: Clauses::new(alloc),
            trail: Trail::new(alloc),
            trues: Trail::new(alloc),
            work: Work::new(alloc),
            guide: Guide::new(alloc),
        }
    }

    /// Whether the formula is satisfiable: bits that satisfy it, or a log that proves that none do.
    pub fn solve(&mut self, formula: &Formula) -> Result<Solved, AllocError>
        requires { IsFormula formula.now }
        ensures exactly { IfOk result (IsExact formula.now) }
        ensures shown { IfOk result (IsShown formula.now) }
        ensures writable { IfOk result IsWritableAnswer }
    {
        let alloc = self.alloc;
        let count = formula.variables as usize + 1;
        let buffer = std::mem::replace(&mut self.clauses, Clauses::new(alloc));
        let mut draft = LogDraft::new(alloc, formula, buffer)?;
        self.trail.clear();
        self.work.fit(count)?;
        self.guide.reset(formula);
        let problem = Problem {
            alloc,
            formula,
            count,
        };
        let end = search(
            &problem,
            &mut draft,
            &mut self.trail,
            &mut self.trues,
            &mut self.work,
            &mut self.guide,
        )?;
        match end {
            End::Satisfied(bits) => {
                self.clauses = draft.into_buffer();
                Ok(Solved::Sat(bits))
            }
            End::Refuted(hints) => {
                let (log, buffer) = draft.finish(hints)?;
                self.clauses = buffer;
                Ok(Solved::Unsat(log))
            }
        }
    }
}

/// Whether the formula is satisfiable: bits that satisfy it, or a log that proves that none do.
///
/// It makes a [`Solver`] and uses it once.
pub fn solve(alloc: Global, formula: &Formula) -> Result<Solved, AllocError>
    requires { IsFormula formula.now }
    ensures exactly { IfOk result (IsExact formula.now) }
    ensures shown { IfOk result (IsShown formula.now) }
    ensures writable { IfOk result IsWritableAnswer }
{
    let mut solver = Solver::new(alloc);
    solver.solve(formula)
}
