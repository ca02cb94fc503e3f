//! The clause that is learnt from a conflict.

ghost use Rattle.std.specs.Prelude.{◌≡◌, List, ◌+◌, ◌<◌, ◌≤◌, true, false, [], ℕ, ◌∷◌, ◌++◌, length, take};
ghost use Rattle.std.specs.Prelude.{None, ◌⊎◌, map, reverse, Some, MatchOption, OnOk, IfOk, if◌then◌else◌};
ghost use Rattle.std.specs.List.{slice_get};
ghost use Rattle.std.specs.Bool.{IsTrue};
ghost use Rattle.cg_formula.specs.declared.formula.Lit.{Lit};
ghost use Rattle.cg_formula.specs.Lits.{inverse, is_in};
ghost use Rattle.cg_sat_state.specs.Trail.{lits_of, IsTrail, IsImplied};
ghost use Rattle.cg_sat_state.specs.declared.trail.Entry.{Entry};
ghost use Rattle.cg_sat.specs.inner.Search.{IsConflict};
ghost use Rattle.cg_sat.specs.inner.Learn.{is_marked, VariablesBelow, Derives, AreClear, IsDecided, AreImplied, Gathered, IsTop};
ghost use Rattle.cg_sat.specs.inner.Learn.{IsLevel, IsPoint, Teaches};

use crate::units::is_unit;
use cg_formula::Lit;
use cg_sat_guide::guide::Guide;
use cg_sat_state::clauses::Clauses;
use cg_sat_state::trail::Entry;
use std::alloc::{AllocError, Global};

/// Room for so many hints is made at once.
const MANY: usize = 32;

/// A clause that is learnt from a conflict.
#[derive(Drop)]
pub struct Learnt {
    /// Its literals, of which the first becomes true.
    pub lits: Vec<Lit>,
    /// Its hints.
    pub hints: Vec<u64>,
    /// Where the trail is to be cut.
    pub cut: usize,
}

/// What a conflict teaches.
#[derive(Drop)]
pub enum Lesson {
    /// The hints of the empty clause.
    Empty(Vec<u64>),
    /// A clause.
    Clause(Learnt),
}

/// The clause so far.
#[derive(Drop)]
pub struct Work {
    // The variables whose literals are needed.
    marks: Vec<bool>,
    // The literals of the trail whose inverses make the clause.
    kept: Vec<Lit>,
    // The hints, the last one first.
    hints: Vec<u64>,
}

impl Work {
    /// Nothing is marked yet.
    pub fn new(alloc: Global) -> Self {
        Work {
            marks: Vec::new(alloc),
            kept: Vec::new(alloc),
            hints: Vec::new(alloc),
        }
    }

    /// Makes room for the marks of so many variables. A mark that was left is of no harm: it stands for a literal
    /// that is needed, and what is needed too much is not true, and passed over.
    pub fn fit(&mut self, count: usize) -> Result<(), AllocError>
        ensures { OnOk result (count ≤ length self.new.marks.items) }
    {
        if self.marks.len() < count {
            self.marks.resize(count, false)?;
        }
        Ok(())
    }
}

/// Marks the variables of a clause.
fn mark(marks: &mut Vec<bool>, guide: &mut Guide, clause: &[Lit])
    requires { (lit : Lit) → is_in lit clause.now ≡ true → lit.variable < length marks.old.items }
    ensures marked { (lit : Lit) → is_in lit clause.now ≡ true → is_marked marks.new.items lit ≡ true }
    ensures stay { (lit : Lit) → is_marked marks.old.items lit ≡ true → is_marked marks.new.items lit ≡ true }
    ensures len { length marks.new.items ≡ length marks.old.items }
{
    for lit in clause {
        let index = lit.variable as usize;
        if !marks[index] {
            guide.order.bump(lit.variable);
        }
        marks[index] = true;
    }
}

/// The place of the unit clause of a literal, where there is one, in place of its reason.
fn shortest(guide: &Guide, clauses: &Clauses, lit: Lit, reason: usize) -> usize
    ensures { (before : List Lit) → IsImplied clauses.now before lit reason → IsImplied clauses.now before lit result }
{
    let place = guide.unit(lit);
    if is_unit(clauses, place, lit) {
        place
    } else {
        reason
    }
}

/// Takes the reason of an entry, or its unit clause, in place of its literal.
fn resolve(
    work: &mut Work,
    guide: &mut Guide,
    clauses: &Clauses,
    trail: &[Entry],
    at: usize,
    reason: usize,
) -> Result<(), AllocError>
    requires within { at < length trail.now }
    requires stands { (entry : Entry) → slice_get trail.now at ≡ Some entry → entry.reason ≡ Some reason }
    requires trail { IsTrail clauses.now trail.now }
    requires named { VariablesBelow (length work.old.marks.items) clauses.now trail.now }
    requires derives { Derives clauses.now (lits_of (take (at + 1) trail.now)) work.old.marks.items work.old.kept.items work.old.hints.items }
    ensures derives { OnOk result (Derives clauses.now (lits_of (take at trail.now)) work.new.marks.items work.new.kept.items work.new.hints.items) }
    ensures marks { length work.new.marks.items ≡ length work.old.marks.items }
    ensures kept { work.new.kept.items ≡ work.old.kept.items }
{
    let entry = trail[at];
    let place = shortest(guide, clauses, entry.lit, reason);
    let Some(clause) = clauses.get(place) else {
        unreachable!();
    };
    work.hints.push(clauses.id(place))?;
    guide.merits.bump(place);
    mark(&mut work.marks, guide, clause);
    work.marks[entry.lit.variable as usize] = false;
    Ok(())
}

/// Keeps the literal of an entry.
fn keep(work: &mut Work, clauses: &Clauses, trail: &[Entry], at: usize) -> Result<(), AllocError>
    requires within { at < length trail.now }
    requires trail { IsTrail clauses.now trail.now }
    requires named { VariablesBelow (length work.old.marks.items) clauses.now trail.now }
    requires derives { Derives clauses.now (lits_of (take (at + 1) trail.now)) work.old.marks.items work.old.kept.items work.old.hints.items }
    ensures derives { OnOk result (Derives clauses.now (lits_of (take at trail.now)) work.new.marks.items work.new.kept.items work.new.hints.items) }
    ensures marks { length work.new.marks.items ≡ length work.old.marks.items }
    ensures kept { (entry : Entry) → slice_get trail.now at ≡ Some entry → OnOk result (work.new.kept.items ≡ work.old.kept.items ++ entry.lit ∷ []) }
    ensures fewer { (lit : Lit) → is_marked work.old.marks.items lit ≡ false → is_marked work.new.marks.items lit ≡ false }
{
    let _ = clauses;
    let entry = trail[at];
    work.kept.push(entry.lit)?;
    work.marks[entry.lit.variable as usize] = false;
    Ok(())
}

/// Whether all literals of a reason but one are needed anyway.
fn is_redundant(marks: &[bool], guide: &Guide, clauses: &Clauses, reason: usize, lit: Lit) -> bool {
    let Some(clause) = clauses.get(reason) else {
        return false;
    };
    for other in clause {
        match marks.get(other.variable as usize) {
            Some(true) => {}
            _ if other.is(lit) || guide.has_unit(*other) => {}
            _ => return false,
        }
    }
    true
}

/// Whether no entry of these places is needed.
fn is_clear(marks: &[bool], trail: &[Entry], from: usize, to: usize) -> bool
    requires within { to ≤ length trail.now }
    requires named { (k : ℕ) (entry : Entry) → slice_get trail.now k ≡ Some entry → entry.lit.variable < length marks.now }
    ensures { IsTrue result → AreClear marks.now trail.now from to }
{
    for at in (from..to).rev() {
        if marks[trail[at].lit.variable as usize] {
            return false;
        }
    }
    true
}

/// Takes the reason of an entry that is needed, or keeps its literal. Answers whether it was kept.
fn settle(
    work: &mut Work,
    guide: &mut Guide,
    clauses: &Clauses,
    trail: &[Entry],
    at: usize,
) -> Result<bool, AllocError>
    requires within { at < length trail.now }
    requires trail { IsTrail clauses.now trail.now }
    requires named { VariablesBelow (length work.old.marks.items) clauses.now trail.now }
    requires derives { Derives clauses.now (lits_of (take (at + 1) trail.now)) work.old.marks.items work.old.kept.items work.old.hints.items }
    ensures derives { OnOk result (Derives clauses.now (lits_of (take at trail.now)) work.new.marks.items work.new.kept.items work.new.hints.items) }
    ensures marks { length work.new.marks.items ≡ length work.old.marks.items }
    ensures kept { (entry : Entry) → slice_get trail.now at ≡ Some entry →
        IfOk result (λ kept. work.new.kept.items ≡ (if kept then work.old.kept.items ++ entry.lit ∷ [] else work.old.kept.items)) }
{
    let entry = trail[at];
    if !work.marks[entry.lit.variable as usize] {
        return Ok(false);
    }
    match entry.reason {
        Some(reason)
            if at < guide.fixed
                || is_redundant(
                    work.marks.as_slice(),
                    guide,
                    clauses,
                    reason as usize,
                    entry.lit,
                ) => {
            resolve(work, guide, clauses, trail, at, reason as usize)?;
            Ok(false)
        }
        _ => {
            keep(work, clauses, trail, at)?;
            Ok(true)
        }
    }
}

/// Goes down the trail from a decision: what is needed there is kept, or its reason is taken. Answers where the trail
/// is to be cut: at the lowest decision above all that is kept.
fn gather(
    work: &mut Work,
    guide: &mut Guide,
    clauses: &Clauses,
    trail: &[Entry],
    from: usize,
) -> Result<usize, AllocError>
    requires within { from < length trail.now }
    requires decided { IsDecided trail.now from }
    requires trail { IsTrail clauses.now trail.now }
    requires named { VariablesBelow (length work.old.marks.items) clauses.now trail.now }
    requires derives { Derives clauses.now (lits_of (take from trail.now)) work.old.marks.items work.old.kept.items work.old.hints.items }
    ensures derives { OnOk result (Derives clauses.now [] work.new.marks.items work.new.kept.items work.new.hints.items) }
    ensures marks { length work.new.marks.items ≡ length work.old.marks.items }
    ensures gathered { IfOk result (λ cut. Gathered trail.now from cut work.old.kept.items work.new.kept.items) }
{
    let mut cut = from;
    let mut settled = false;
    for at in (0..from).rev() {
        if settle(work, guide, clauses, trail, at)? {
            settled = true;
        } else if !settled && trail[at].reason.is_none() {
            cut = at;
        }
    }
    Ok(cut)
}

/// The last place at which something is needed.
fn last_marked(marks: &[bool], trail: &[Entry]) -> Option<usize>
    requires named { (k : ℕ) (entry : Entry) → slice_get trail.now k ≡ Some entry → entry.lit.variable < length marks.now }
    ensures { MatchOption result (AreClear marks.now trail.now 0 (length trail.now)) (λ top. IsTop marks.now trail.now top) }
{
    for at in (0..trail.len()).rev() {
        if marks[trail[at].lit.variable as usize] {
            return Some(at);
        }
    }
    None
}

/// The last decision at a place or before it.
fn level_of(trail: &[Entry], top: usize) -> Option<usize>
    requires { top < length trail.now }
    ensures { MatchOption result (AreImplied trail.now 0 (top + 1)) (λ from. IsLevel trail.now top from) }
{
    for at in (0..top + 1).rev() {
        if trail[at].reason.is_none() {
            return Some(at);
        }
    }
    None
}

/// Takes the reason of an entry, if its literal is needed.
fn resolve_at(
    work: &mut Work,
    guide: &mut Guide,
    clauses: &Clauses,
    trail: &[Entry],
    at: usize,
) -> Result<(), AllocError>
    requires within { at < length trail.now }
    requires implied { AreImplied trail.now at (at + 1) }
    requires trail { IsTrail clauses.now trail.now }
    requires named { VariablesBelow (length work.old.marks.items) clauses.now trail.now }
    requires derives { Derives clauses.now (lits_of (take (at + 1) trail.now)) work.old.marks.items work.old.kept.items work.old.hints.items }
    ensures derives { OnOk result (Derives clauses.now (lits_of (take at trail.now)) work.new.marks.items work.new.kept.items work.new.hints.items) }
    ensures marks { length work.new.marks.items ≡ length work.old.marks.items }
    ensures kept { work.new.kept.items ≡ work.old.kept.items }
{
    let entry = trail[at];
    if !work.marks[entry.lit.variable as usize] {
        return Ok(());
    }
    let Some(reason) = entry.reason else {
        unreachable!();
    };
    resolve(work, guide, clauses, trail, at, reason as usize)
}

/// Whether an entry is needed, and nothing else of its level, which begins at this place.
fn is_point(marks: &[bool], trail: &[Entry], from: usize, at: usize) -> bool
    requires within { at < length trail.now }
    requires named { (k : ℕ) (entry : Entry) → slice_get trail.now k ≡ Some entry → entry.lit.variable < length marks.now }
    ensures { IsTrue result → AreClear marks.now trail.now from at }
{
    marks[trail[at].lit.variable as usize] && is_clear(marks, trail, from, at)
}

/// Takes reasons in place of what is needed last, until nothing else of the level is needed.
fn first_point(
    work: &mut Work,
    guide: &mut Guide,
    clauses: &Clauses,
    trail: &[Entry],
    from: usize,
    top: usize,
) -> Result<usize, AllocError>
    requires within { top < length trail.now }
    requires level { IsLevel trail.now top from }
    requires trail { IsTrail clauses.now trail.now }
    requires named { VariablesBelow (length work.old.marks.items) clauses.now trail.now }
    requires derives { Derives clauses.now (lits_of (take (top + 1) trail.now)) work.old.marks.items work.old.kept.items work.old.hints.items }
    ensures derives { IfOk result
        (λ at. Derives clauses.now (lits_of (take (at + 1) trail.now)) work.new.marks.items work.new.kept.items work.new.hints.items) }
    ensures point { IfOk result (λ at. IsPoint trail.now work.new.marks.items from top at) }
    ensures marks { length work.new.marks.items ≡ length work.old.marks.items }
    ensures kept { work.new.kept.items ≡ work.old.kept.items }
{
    for at in (from + 1..top + 1).rev() {
        if is_point(work.marks.as_slice(), trail, from, at) {
            return Ok(at);
        }
        resolve_at(work, guide, clauses, trail, at)?;
    }
    Ok(from)
}

/// Takes the reasons of all that is needed.
fn refute(
    work: &mut Work,
    guide: &mut Guide,
    clauses: &Clauses,
    trail: &[Entry],
    top: usize,
) -> Result<(), AllocError>
    requires within { top < length trail.now }
    requires implied { AreImplied trail.now 0 (top + 1) }
    requires trail { IsTrail clauses.now trail.now }
    requires named { VariablesBelow (length work.old.marks.items) clauses.now trail.now }
    requires derives { Derives clauses.now (lits_of (take (top + 1) trail.now)) work.old.marks.items work.old.kept.items work.old.hints.items }
    ensures derives { OnOk result (Derives clauses.now [] work.new.marks.items work.new.kept.items work.new.hints.items) }
    ensures marks { length work.new.marks.items ≡ length work.old.marks.items }
    ensures kept { work.new.kept.items ≡ work.old.kept.items }
{
    for at in (0..top + 1).rev() {
        resolve_at(work, guide, clauses, trail, at)?;
    }
    Ok(())
}

/// The hints, the first one first.
fn take_hints(alloc: Global, work: &mut Work) -> Vec<u64>
    ensures hints { result.items ≡ reverse work.old.hints.items }
    ensures marks { length work.new.marks.items ≡ length work.old.marks.items }
{
    let mut hints = std::mem::replace(&mut work.hints, Vec::new(alloc));
    hints.reverse();
    hints
}

/// The literals inverted.
fn inverses(alloc: Global, lits: &[Lit]) -> Result<Vec<Lit>, AllocError>
    ensures { IfOk result (λ inverted. inverted.items ≡ map inverse lits.now) }
{
    let mut inverted = Vec::with_capacity(alloc, lits.len())?;
    for lit in lits {
        inverted.push(lit.inverse())?;
    }
    Ok(inverted)
}

/// What is learnt from a clause whose literals are all false.
pub fn learn(
    alloc: Global,
    work: &mut Work,
    guide: &mut Guide,
    clauses: &Clauses,
    trail: &[Entry],
    conflict: usize,
) -> Result<Lesson, AllocError>
    requires conflict { IsConflict clauses.now trail.now conflict }
    requires trail { IsTrail clauses.now trail.now }
    requires named { VariablesBelow (length work.old.marks.items) clauses.now trail.now }
    ensures lesson { IfOk result (λ lesson. Teaches clauses.now trail.now lesson) }
    ensures marks { length work.new.marks.items ≡ length work.old.marks.items }
{
    let Some(clause) = clauses.get(conflict) else {
        unreachable!();
    };
    work.kept.clear();
    work.hints.reserve(MANY)?;
    work.hints.clear();
    work.hints.push(clauses.id(conflict))?;
    guide.merits.bump(conflict);
    mark(&mut work.marks, guide, clause);
    let Some(top) = last_marked(work.marks.as_slice(), trail) else {
        return Ok(Lesson::Empty(take_hints(alloc, work)));
    };
    let Some(from) = level_of(trail, top) else {
        guide.order.end();
        refute(work, guide, clauses, trail, top)?;
        return Ok(Lesson::Empty(take_hints(alloc, work)));
    };
    let at = first_point(work, guide, clauses, trail, from, top)?;
    keep(work, clauses, trail, at)?;
    let cut = gather(work, guide, clauses, trail, from)?;
    let lits = inverses(alloc, work.kept.as_slice())?;
    let hints = take_hints(alloc, work);
    Ok(Lesson::Clause(Learnt { lits, hints, cut }))
}
