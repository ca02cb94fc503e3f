//! Unit clauses of the literals that are true before any decision.
//!
//! Once such a literal has its unit clause in the log, no later clause takes the steps again that lead to it.

ghost use Rattle.std.specs.Prelude.{◌≡◌, ◌≤◌, ◌^◌, ℕ, true, List, [], ◌∷◌, Some, None, OnOk, IfOk};
ghost use Rattle.std.specs.Option.{IfSome};
ghost use Rattle.std.specs.Bool.{IsTrue};
ghost use Rattle.cg_formula.specs.declared.formula.Lit.{Lit};
ghost use Rattle.cg_formula.specs.declared.formula.Formula.{Formula};
ghost use Rattle.cg_formula.specs.Lits.{inverse, is_in};
ghost use Rattle.cg_lrat.specs.Accepted.{clause_fault};
ghost use Rattle.cg_sat_state.specs.Trail.{lits_of};
ghost use Rattle.cg_sat.specs.inner.Derive.{Follows};
ghost use Rattle.cg_sat_state.specs.Store.{clause_at, live_of};
ghost use Rattle.cg_sat.specs.inner.Search.{IsSearch, HasPrefix};

use crate::problem::Problem;
use cg_formula::Lit;
use cg_sat_guide::guide::Guide;
use cg_sat_state::clauses::Clauses;
use cg_sat_state::draft::LogDraft;
use cg_sat_state::trail::{Entry, Trail};
use std::alloc::{AllocError, Global};

/// Whether the clause at a place is the literal alone.
pub fn is_unit(clauses: &Clauses, place: usize, lit: Lit) -> bool
    ensures { IsTrue result → clause_at clauses.now place ≡ Some (lit ∷ []) }
{
    match clauses.get(place) {
        Some([only]) => only.is(lit),
        _ => false,
    }
}

/// Takes the unit clause that makes a literal false as a hint, unless the literal is false already. Answers whether it is
/// false now.
fn take_unit(
    clauses: &Clauses,
    guide: &Guide,
    trues: &mut Trail,
    hints: &mut Vec<u64>,
    lit: Lit,
) -> Result<bool, AllocError>
    ensures follows { (first : List Lit) → Follows (live_of clauses.now) first hints.old.items (lits_of trues.old)
        → OnOk result (Follows (live_of clauses.now) first hints.new.items (lits_of trues.new)) }
    ensures kept { (other : Lit) → is_in other (lits_of trues.old) ≡ true → OnOk result (is_in other (lits_of trues.new) ≡ true) }
    ensures off { IfOk result (λ found. IsTrue found → is_in (inverse lit) (lits_of trues.new) ≡ true) }
{
    let inverse = lit.inverse();
    if trues.has(inverse) {
        return Ok(true);
    }
    if trues.has(lit) {
        return Ok(false);
    }
    let place = guide.unit(inverse);
    if !is_unit(clauses, place, inverse) {
        return Ok(false);
    }
    hints.push(clauses.id(place))?;
    trues.push(Entry {
        lit: inverse,
        reason: None,
    })?;
    Ok(true)
}

/// The hints of the unit clause of a literal: unit clauses that make all other literals of its reason false, and the
/// reason. None where one of them has no unit clause.
fn unit_hints(
    alloc: Global,
    clauses: &Clauses,
    guide: &Guide,
    trues: &mut Trail,
    lit: Lit,
    reason: usize,
) -> Result<Option<Vec<u64>>, AllocError>
    ensures { IfOk result (λ found. IfSome found (λ hints. clause_fault (live_of clauses.now) (lit ∷ []) hints.items ≡ None)) }
{
    let Some(clause) = clauses.get(reason) else {
        return Ok(None);
    };
    let mut hints = Vec::new(alloc);
    trues.clear();
    trues.push(Entry {
        lit: lit.inverse(),
        reason: None,
    })?;
    for other in clause {
        let is_false = take_unit(clauses, guide, trues, &mut hints, *other)?;
        if !is_false {
            return Ok(None);
        }
    }
    hints.push(clauses.id(reason))?;
    Ok(Some(hints))
}

/// Adds the unit clause of an entry's literal, where it follows from other unit clauses and the entry's reason.
fn add_unit(
    problem: &Problem<'_>,
    draft: &mut LogDraft<'_>,
    guide: &mut Guide,
    trues: &mut Trail,
    trail: &[Entry],
    entry: Entry,
) -> Result<(), AllocError>
    requires search { IsSearch problem.now.count draft.old.clauses trail.now }
    requires few { problem.now.count ≤ 2 ^ 30 }
    ensures formula { draft.new.formula ≡ draft.old.formula }
    ensures prefix { (formula : Formula) → HasPrefix formula draft.old.clauses → OnOk result (HasPrefix formula draft.new.clauses) }
    ensures search { OnOk result (IsSearch problem.now.count draft.new.clauses trail.now) }
{
    let _ = trail;
    let alloc = problem.alloc;
    let Some(reason) = entry.reason else {
        return Ok(());
    };
    let lit = entry.lit;
    if lit.variable == 0 || lit.variable as usize >= problem.count || guide.has_unit(lit) {
        return Ok(());
    }
    let Some(hints) = unit_hints(alloc, draft.clauses(), guide, trues, lit, reason as usize)? else {
        return Ok(());
    };
    let place = draft.clauses().len();
    let lits = Vec::from_slice(alloc, &[lit])?;
    draft.add(lits, hints)?;
    guide.enter(place, &[lit])?;
    Ok(())
}

/// Adds unit clauses of the literals of the trail, if some may have none yet. None of them is to be decided then.
pub fn add_units(
    problem: &Problem<'_>,
    draft: &mut LogDraft<'_>,
    guide: &mut Guide,
    trues: &mut Trail,
    trail: &[Entry],
) -> Result<(), AllocError>
    requires search { IsSearch problem.now.count draft.old.clauses trail.now }
    requires few { problem.now.count ≤ 2 ^ 30 }
    ensures formula { draft.new.formula ≡ draft.old.formula }
    ensures prefix { (formula : Formula) → HasPrefix formula draft.old.clauses → OnOk result (HasPrefix formula draft.new.clauses) }
    ensures search { OnOk result (IsSearch problem.now.count draft.new.clauses trail.now) }
{
    if !guide.unsettled {
        return Ok(());
    }
    for at in guide.fixed..trail.len() {
        add_unit(problem, draft, guide, trues, trail, trail[at])?;
    }
    guide.fixed = trail.len();
    guide.unsettled = false;
    Ok(())
}
