//! What the trail makes of a clause.

ghost use Rattle.std.specs.Prelude.{◌≡◌};
ghost use Rattle.cg_sat_state.specs.Trail.{lits_of};
ghost use Rattle.cg_sat.specs.inner.Scan.{Finds, Leaves};

use cg_formula::Lit;
use cg_sat_state::trail::Trail;

/// What is found in a clause, beside a given literal.
#[derive(Clone, Copy)]
pub enum Found {
    /// Another literal that is not false.
    Another(Lit),
    /// All but the given literal are false.
    One,
    /// All literals are false.
    Nothing,
}

/// Looks for a literal that is not false, beside the given one.
pub fn scan(trail: &Trail, clause: &[Lit], given: Lit) -> Found
    ensures { Finds (lits_of trail.now) clause.now given result }
{
    let mut found = Found::Nothing;
    for lit in clause {
        if !trail.has(lit.inverse()) {
            if lit.is(given) {
                found = Found::One;
            } else {
                return Found::Another(*lit);
            }
        }
    }
    found
}

/// What is left of a clause.
#[derive(Clone, Copy)]
pub enum Rest {
    /// Maybe more than the given literal.
    More,
    /// The given literal: all others are false.
    One,
    /// Nothing: all literals are false.
    Nothing,
}

/// Looks whether all literals but the given one are false. Which of them that one is, and how many there are, is hard to foresee,
/// so no branch asks for it.
pub fn rest_of(trail: &Trail, clause: &[Lit], given: Lit) -> Rest
    ensures { Leaves (lits_of trail.now) clause.now given result }
{
    let mut more = false;
    let mut left = false;
    for lit in clause {
        let is_open = !trail.has(lit.inverse());
        more |= is_open & !lit.is(given);
        left |= is_open;
    }
    if more {
        Rest::More
    } else if left {
        Rest::One
    } else {
        Rest::Nothing
    }
}
