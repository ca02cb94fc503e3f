//! Learnt clauses that are of no more use are deleted.

ghost use Rattle.std.specs.Prelude.{◌≡◌, ◌<◌, ℕ, true, false, Some, length, slice_index_or, OnOk, IfOk};
ghost use Rattle.std.specs.List.{slice_get};
ghost use Rattle.cg_sat_state.specs.declared.trail.Entry.{Entry};
ghost use Rattle.cg_sat.specs.inner.Search.{IsSearch, HasPrefix, MarksReasons};

use crate::problem::Problem;
use cg_sat_guide::guide::Guide;
use cg_sat_state::draft::LogDraft;
use cg_sat_state::trail::Entry;
use std::alloc::{AllocError, Global};

/// Marks the places of the clauses that are reasons.
fn reasons(alloc: Global, trail: &[Entry], places: usize) -> Result<Vec<bool>, AllocError>
    ensures long { IfOk result (λ used. length used.items ≡ places) }
    ensures marked { IfOk result (λ used. MarksReasons trail.now used.items) }
{
    let mut used = vec![in alloc; false; places]?;
    for entry in trail {
        if let Some(reason) = entry.reason {
            let place = reason as usize;
            if place < used.len() {
                used[place] = true;
            }
        }
    }
    Ok(used)
}

/// Deletes the clause at a place, but none of the formula's and no reason.
fn delete_learnt(
    problem: &Problem<'_>,
    draft: &mut LogDraft<'_>,
    trail: &[Entry],
    used: &[bool],
    place: usize,
) -> Result<(), AllocError>
    requires marked { MarksReasons trail.now used.now }
    requires search { IsSearch problem.now.count draft.old.clauses trail.now }
    requires prefix { HasPrefix problem.now.formula.now draft.old.clauses }
    ensures formula { draft.new.formula ≡ draft.old.formula }
    ensures prefix { OnOk result (HasPrefix problem.now.formula.now draft.new.clauses) }
    ensures search { OnOk result (IsSearch problem.now.count draft.new.clauses trail.now) }
{
    let _ = trail;
    let first = problem.formula.clauses.len();
    if place < first {
        return Ok(());
    }
    if place >= used.len() {
        return Ok(());
    }
    if used[place] {
        return Ok(());
    }
    draft.delete(place)?;
    Ok(())
}

/// Deletes half of the learnt clauses, but those that are reasons.
pub fn forget(
    problem: &Problem<'_>,
    draft: &mut LogDraft<'_>,
    guide: &mut Guide,
    trail: &[Entry],
) -> Result<(), AllocError>
    requires search { IsSearch problem.now.count draft.old.clauses trail.now }
    requires prefix { HasPrefix problem.now.formula.now draft.old.clauses }
    ensures formula { draft.new.formula ≡ draft.old.formula }
    ensures prefix { OnOk result (HasPrefix problem.now.formula.now draft.new.clauses) }
    ensures search { OnOk result (IsSearch problem.now.count draft.new.clauses trail.now) }
{
    let used = reasons(problem.alloc, trail, draft.clauses().len())?;
    let found = guide.merits.lower_half(draft.clauses())?;
    'found: for (_, place) in found.as_slice() {
        delete_learnt(problem, draft, trail, used.as_slice(), *place)?;
        if draft.clauses().get(*place).is_none() {
            guide.watches.remove(*place);
        }
    }
    guide.watches.tighten();
    guide.watches.shorts.pack()?;
    Ok(())
}
