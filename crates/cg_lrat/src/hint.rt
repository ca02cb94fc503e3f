//! What a hint is worth while a step is checked.

ghost use Rattle.std.specs.Prelude.{◌≡◌, IfOk};
ghost use Rattle.cg_lrat.specs.Accepted.{non_false_of, non_false_lits, hints_fault};
ghost use Rattle.cg_lrat.specs.inner.Hints.{Propagates, last_fault};
ghost use Rattle.cg_lrat.specs.inner.LiveTable.{live_in};

use crate::assignment::Assignment;
use crate::live::LiveClauses;
use crate::verdict::Why;
use cg_formula::Lit;
use std::alloc::AllocError;

/// The literals of a clause that are not false.
#[derive(Clone, Copy)]
pub enum NonFalse {
    /// All are false.
    Nothing,
    /// All but this one, however often it stands there.
    One(Lit),
    /// At least two different ones are not false.
    Many,
}

impl NonFalse {
    ghost use Rattle.cg_lrat.specs.inner.NonFalse.{with_lit};

    /// What is not false once this literal, too, is found not to be.
    fn and(self, lit: Lit) -> NonFalse
        ensures { result ≡ with_lit self lit }
    {
        match self {
            NonFalse::Nothing => NonFalse::One(lit),
            NonFalse::One(one) if one.is(lit) => NonFalse::One(one),
            _ => NonFalse::Many,
        }
    }
}

/// Looks over a clause.
pub fn non_false(clause: &[Lit], assignment: &Assignment) -> NonFalse
    ensures { result ≡ non_false_of (non_false_lits assignment.now clause.now) }
{
    let mut found = NonFalse::Nothing;
    for lit in clause {
        if !assignment.has(lit.inverse()) {
            found = found.and(*lit);
        }
    }
    found
}

/// Takes a hint before the last: its clause is to be unit, and its literal that is not false becomes true.
fn propagate(
    live: &LiveClauses<'_>,
    assignment: &mut Assignment,
    hint: u64,
) -> Result<Option<Why>, AllocError>
    ensures { IfOk result (λ fault. Propagates (live_in live.now) assignment.old hint fault assignment.new) }
{
    let Some(clause) = live.get(hint) else {
        return Ok(Some(Why::UnknownId(hint)));
    };
    match non_false(clause, assignment) {
        NonFalse::One(lit) if !assignment.has(lit) => {
            assignment.make_true(lit)?;
            Ok(None)
        }
        _ => Ok(Some(Why::NotUnit(hint))),
    }
}

/// Takes the last hint: all literals of its clause are to be false.
fn conclude(live: &LiveClauses<'_>, assignment: &Assignment, hint: u64) -> Option<Why>
    ensures { result ≡ last_fault (live_in live.now) assignment.now hint }
{
    let Some(clause) = live.get(hint) else {
        return Some(Why::UnknownId(hint));
    };
    match non_false(clause, assignment) {
        NonFalse::Nothing => None,
        _ => Some(Why::NotFalse(hint)),
    }
}

/// The first fault of the hints, where these literals are true.
pub fn hints_fault(
    live: &LiveClauses<'_>,
    assignment: &mut Assignment,
    hints: &[u64],
) -> Result<Option<Why>, AllocError>
    ensures { IfOk result (λ fault. fault ≡ hints_fault (live_in live.now) assignment.old hints.now) }
{
    let Some((last, others)) = hints.split_last() else {
        return Ok(Some(Why::NoHint));
    };
    for hint in others {
        if let Some(why) = propagate(live, assignment, *hint)? {
            return Ok(Some(why));
        }
    }
    Ok(conclude(live, assignment, *last))
}
