//! Which clauses of two or three literals are looked at when a literal becomes false.
//!
//! Such a clause stands on the list of each of its literals, with the others beside it: so a look at it reads nothing else, and
//! it never goes to another list. Nothing of an answer rests on it.

ghost use Rattle.std.specs.Prelude.{◌<◌, ◌+◌, length};

use cg_sat_state::trail::Trail;
use std::alloc::{AllocError, Global};

/// No clause.
pub const NOWHERE: u32 = u32::MAX;

/// So few clauses are not moved together.
const FEW: usize = 1000;

/// A clause on the list of a literal.
#[derive(Clone, Copy)]
pub struct Short {
    /// Its place.
    pub place: u32,
    /// The numbers of its other literals; of two literals the other one, twice.
    pub first: u32,
    pub second: u32,
    /// Where the next clause of the list stands.
    pub next: u32,
}

/// The literal that is to be true now that all others are false, where no other one is true.
pub fn last_of(trail: &Trail, short: Short) -> Option<u32> {
    let Short { first, second, .. } = short;
    if trail.has_number(first as usize) || trail.has_number(second as usize) {
        return None;
    }
    if first == second || trail.has_number((first ^ 1) as usize) {
        return Some(second);
    }
    if trail.has_number((second ^ 1) as usize) {
        return Some(first);
    }
    None
}

/// Copies a list that begins there behind others. Answers where it begins now.
fn move_list(shorts: &[Short], head: u32, to: &mut Vec<Short>) -> Result<u32, AllocError> {
    let from = to.len();
    let mut at = head;
    for _ in 0..shorts.len() {
        let Some(short) = shorts.get(at as usize) else {
            break;
        };
        let next = to.len();
        if next >= NOWHERE as usize {
            return Err(AllocError);
        }
        to.push(Short {
            next: next as u32 + 1,
            ..*short
        })?;
        at = short.next;
    }
    Ok(end_list(to.as_mut_slice(), from))
}

/// Ends the last list, which begins there. Answers where it begins, if it has a clause.
fn end_list(lists: &mut [Short], from: usize) -> u32 {
    let count = lists.len();
    if from >= count || from >= NOWHERE as usize {
        return NOWHERE;
    }
    lists[count - 1].next = NOWHERE;
    from as u32
}

/// The lists, by literal, all in one.
#[derive(Drop)]
pub struct Shorts {
    // By literal, where its list begins. It is empty until there is a clause.
    heads: Vec<u32>,
    // How many literals there are.
    count: usize,
    shorts: Vec<Short>,
    // What the clauses are moved to.
    spare: Vec<Short>,
}

impl Shorts {
    /// No clause.
    pub fn new(alloc: Global) -> Self {
        Shorts {
            heads: Vec::new(alloc),
            count: 0,
            shorts: Vec::new(alloc),
            spare: Vec::new(alloc),
        }
    }

    /// No clause of so many literals.
    pub fn reset(&mut self, count: usize) {
        self.shorts.clear();
        self.heads.clear();
        self.count = count;
    }

    /// How many entries there are on all lists.
    pub fn len(&self) -> usize {
        self.shorts.len()
    }

    /// Where the list of a literal begins.
    pub fn head(&self, lit: u32) -> u32 {
        match self.heads.get(lit as usize) {
            Some(head) => *head,
            None => NOWHERE,
        }
    }

    /// The clause that stands there.
    pub fn get(&self, at: u32) -> Option<Short> {
        self.shorts.get(at as usize).copied()
    }

    /// Moves the clauses of each list together, where lists are long: a walk along one reads few parts of memory then.
    pub fn pack(&mut self) -> Result<(), AllocError> {
        if self.shorts.len() < FEW || self.shorts.len() / 2 < self.heads.len() {
            return Ok(());
        }
        self.spare.clear();
        for head in &mut self.heads {
            *head = move_list(self.shorts.as_slice(), *head, &mut self.spare)?;
        }
        std::mem::swap(&mut self.shorts, &mut self.spare);
        Ok(())
    }

    /// The clause at a place has two literals, or a third one.
    pub fn add(
        &mut self,
        place: u32,
        first: u32,
        second: u32,
        third: Option<u32>,
    ) -> Result<(), AllocError> {
        self.put(first, place, second, third.unwrap_or(second))?;
        self.put(second, place, first, third.unwrap_or(first))?;
        match third {
            Some(third) => self.put(third, place, first, second),
            None => Ok(()),
        }
    }

    fn put(&mut self, lit: u32, place: u32, first: u32, second: u32) -> Result<(), AllocError> {
        let at = self.shorts.len();
        if at == 0 {
            self.heads.resize(self.count, NOWHERE)?;
        }
        let index = lit as usize;
        if index < self.heads.len() && at < NOWHERE as usize {
            let next = self.heads[index];
            self.shorts.push(Short {
                place,
                first,
                second,
                next,
            })?;
            self.heads[index] = at as u32;
        }
        Ok(())
    }
}
