//! Which learnt clauses are of use.
//!
//! Nothing of an answer rests on it: a clause may be deleted at any time.

use cg_sat_state::clauses::Clauses;
use std::alloc::{AllocError, Global};

/// What a use of a clause adds to its merit, at first and at most.
const FIRST: u64 = 1 << 10;

const MOST: u64 = 1 << 40;

/// How many conflicts there are until clauses are deleted the first time, and how many more each time. Few clauses are kept:
/// each is looked at again and again, and most are never of use again.
const PERIOD: u64 = 100;

const LONGER: u64 = 50;

/// The merits of learnt clauses: each use adds to one, and later uses add more.
#[derive(Drop)]
pub struct Merits {
    alloc: Global,
    merits: Vec<u64>,
    // How many clauses stand before the first learnt one.
    given: usize,
    step: u64,
    // How many conflicts are left until clauses are deleted, and how many there are between two deletions.
    left: u64,
    period: u64,
}

impl Merits {
    /// No clause.
    pub fn new(alloc: Global) -> Self {
        Merits {
            alloc,
            merits: Vec::new(alloc),
            given: 0,
            step: FIRST,
            left: PERIOD,
            period: PERIOD,
        }
    }

    /// No clause any more, for a formula of so many clauses.
    pub fn reset(&mut self, given: usize) {
        self.merits.clear();
        self.given = given;
        self.step = FIRST;
        self.left = PERIOD;
        self.period = PERIOD;
    }

    /// One more learnt clause.
    pub fn push(&mut self) -> Result<(), AllocError> {
        self.merits.push(self.step)?;
        Ok(())
    }

    /// The clause at a place took part in a conflict.
    pub fn bump(&mut self, place: usize) {
        if place < self.given {
            return;
        }
        let at = place - self.given;
        if at < self.merits.len() {
            self.merits[at] = self.merits[at].saturating_add(self.step);
        }
    }

    /// A conflict is over. Later uses add more.
    pub fn decay(&mut self) {
        self.left = self.left.saturating_sub(1);
        self.step = self.step.saturating_add(self.step / 1000);
        if self.step > MOST {
            self.step = FIRST;
            for merit in &mut self.merits {
                *merit /= MOST / FIRST;
            }
        }
    }

    /// Whether it is time to delete clauses. If it is, the time until the next deletion begins.
    pub fn is_due(&mut self) -> bool {
        if self.left > 0 {
            return false;
        }
        self.period = self.period.saturating_add(LONGER);
        self.left = self.period;
        true
    }

    /// The half of the learnt clauses that has the lower merits. Clauses of two or three literals are not among them.
    pub fn lower_half(&self, clauses: &Clauses) -> Result<Vec<(u64, usize)>, AllocError> {
        let mut found = Vec::new(self.alloc);
        for (at, merit) in self.merits.iter().enumerate() {
            let place = self.given.saturating_add(at);
            if clauses.get(place).is_some_and(|lits| lits.len() > 3) {
                found.push((*merit, place))?;
            }
        }
        found.sort()?;
        found.truncate(found.len() / 2);
        Ok(found)
    }
}
