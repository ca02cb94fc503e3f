//! What follows from the literals that are true.

ghost use Rattle.std.specs.Prelude.{◌≡◌, ◌+◌, ◌<◌, ◌≤◌, [], ◌∷◌, ◌++◌, length, OnOk, IfOk};
ghost use Rattle.std.specs.Option.{IfSome};
ghost use Rattle.cg_formula.specs.Assignments.{IsUnassigned};
ghost use Rattle.cg_sat_state.specs.Trail.{lits_of, IsImplied};
ghost use Rattle.cg_sat.specs.inner.Scan.{Finds};
ghost use Rattle.cg_sat.specs.inner.Search.{IsSearch, Grows, IsConflict, IsLook};

use crate::scan::{Rest, rest_of};
use cg_formula::Lit;
use cg_sat_guide::guide::Guide;
use cg_sat_guide::shorts::{Shorts, last_of};
use cg_sat_guide::watches::{Turn, Watch, Watches, code_of, lit_of};
use cg_sat_state::clauses::Clauses;
use cg_sat_state::trail::{Entry, Trail};
use std::alloc::AllocError;

/// What comes of a clause on a list.
#[derive(Clone, Copy)]
pub enum Look {
    /// It stays there. While the literal of this number is true it need not be looked at again.
    Stays(u32),
    /// It went to another list, or was deleted.
    Moved,
    /// It is false.
    Conflict(usize),
}

/// A literal becomes true by a clause. Its place is to be less than 2^32: for more, memory is wanting.
pub fn imply(
    trail: &mut Trail,
    clauses: &Clauses,
    lit: Lit,
    reason: usize,
    count: usize,
) -> Result<(), AllocError>
    requires search { IsSearch count clauses.now trail.old }
    requires free { IsUnassigned (lits_of trail.old) lit }
    requires implied { IsImplied clauses.now (lits_of trail.old) lit reason }
    ensures { OnOk result (Grows count clauses.now trail.old trail.new) }
{
    let _ = clauses;
    let _ = count;
    if reason > u32::MAX as usize {
        return Err(AllocError);
    }
    trail.push(Entry {
        lit,
        reason: Some(reason as u32),
    })?;
    Ok(())
}

/// Looks at a clause of which all literals but this one seem to be false. Answers its place, if it is false.
fn look_at_last(
    trail: &mut Trail,
    clauses: &Clauses,
    place: usize,
    code: u32,
    count: usize,
) -> Result<Option<usize>, AllocError>
    requires { IsSearch count clauses.now trail.old }
    ensures grows { OnOk result (Grows count clauses.now trail.old trail.new) }
    ensures conflict { IfOk result (λ found. IfSome found (IsConflict clauses.now trail.new)) }
{
    let Some(clause) = clauses.get(place) else {
        return Ok(None);
    };
    let last = lit_of(code);
    match rest_of(trail, clause, last) {
        Rest::More => Ok(None),
        Rest::One => {
            if !trail.has(last) && !trail.has(last.inverse()) {
                imply(trail, clauses, last, place, count)?;
            }
            Ok(None)
        }
        Rest::Nothing => Ok(Some(place)),
    }
}

/// Looks at the clauses of two or three literals on the list of a literal.
fn look_along_shorts(
    trail: &mut Trail,
    clauses: &Clauses,
    shorts: &Shorts,
    off: u32,
    count: usize,
) -> Result<Option<usize>, AllocError>
    requires { IsSearch count clauses.now trail.old }
    ensures grows { OnOk result (Grows count clauses.now trail.old trail.new) }
    ensures conflict { IfOk result (λ found. IfSome found (IsConflict clauses.now trail.new)) }
{
    let mut at = shorts.head(off);
    for _step in 0..shorts.len() {
        let Some(short) = shorts.get(at) else {
            break;
        };
        if let Some(last) = last_of(trail, short) {
            let found = look_at_last(trail, clauses, short.place as usize, last, count)?;
            if found.is_some() {
                return Ok(found);
            }
        }
        at = short.next;
    }
    Ok(None)
}

/// Looks at a clause of which the literal of this number became false.
fn look_at(
    trail: &mut Trail,
    clauses: &Clauses,
    watches: &mut Watches,
    watch: Watch,
    off: u32,
    count: usize,
) -> Result<Look, AllocError>
    requires { IsSearch count clauses.now trail.old }
    ensures grows { OnOk result (Grows count clauses.now trail.old trail.new) }
    ensures conflict { IfOk result (IsLook clauses.now trail.new) }
{
    match watches.turn(trail, watch.from, off) {
        Turn::Satisfied(other) => Ok(Look::Stays(other)),
        Turn::Moved(other, next) => {
            let moved = Watch {
                from: watch.from,
                blocker: other,
            };
            watches.put(next, moved)?;
            Ok(Look::Moved)
        }
        Turn::Last(last, place) => {
            match look_at_last(trail, clauses, place as usize, last, count)? {
                Some(place) => Ok(Look::Conflict(place)),
                None => Ok(Look::Stays(last)),
            }
        }
        Turn::Gone => Ok(Look::Moved),
    }
}

/// Looks at the clauses of a list.
fn look_along(
    trail: &mut Trail,
    clauses: &Clauses,
    watches: &mut Watches,
    list: &mut Vec<Watch>,
    off: u32,
    count: usize,
) -> Result<Option<usize>, AllocError>
    requires { IsSearch count clauses.now trail.old }
    ensures grows { OnOk result (Grows count clauses.now trail.old trail.new) }
    ensures conflict { IfOk result (λ found. IfSome found (IsConflict clauses.now trail.new)) }
{
    let mut at = 0;
    'list: while at < list.len() {
        let watch = list[at];
        if trail.has_number(watch.blocker as usize) {
            at += 1;
        } else {
            match look_at(trail, clauses, watches, watch, off, count)? {
                Look::Stays(blocker) => {
                    list[at].blocker = blocker;
                    at += 1;
                }
                Look::Moved => {
                    let _ = list.swap_remove(at);
                }
                Look::Conflict(place) => return Ok(Some(place)),
            }
        }
    }
    Ok(None)
}

/// Makes true what follows, until a clause is false or no clause that is watched gives more.
pub fn propagate(
    trail: &mut Trail,
    clauses: &Clauses,
    guide: &mut Guide,
    count: usize,
) -> Result<Option<usize>, AllocError>
    requires { IsSearch count clauses.now trail.old }
    ensures grows { OnOk result (Grows count clauses.now trail.old trail.new) }
    ensures conflict { IfOk result (λ found. IfSome found (IsConflict clauses.now trail.new)) }
{
    'queue: while guide.taken < trail.len() {
        let off = code_of(trail.entries()[guide.taken].lit) ^ 1;
        guide.taken += 1;
        let found = look_along_shorts(trail, clauses, &guide.watches.shorts, off, count)?;
        if found.is_some() {
            return Ok(found);
        }
        let mut list = guide.watches.open(off);
        let found = look_along(trail, clauses, &mut guide.watches, &mut list, off, count)?;
        guide.watches.close(off, list);
        if found.is_some() {
            return Ok(found);
        }
    }
    Ok(None)
}
