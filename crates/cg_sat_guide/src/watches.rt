//! Which clauses are looked at when a literal becomes false.
//!
//! Nothing of an answer rests on it: a clause that it misses is found where all variables have values.

ghost use Rattle.std.specs.Prelude.{◌<◌, ◌≤◌, ◌^◌, length};
ghost use Rattle.std.specs.Option.{IfSome};

use crate::shorts::{NOWHERE, Shorts};
use cg_formula::Lit;
use cg_sat_state::trail::Trail;
use std::alloc::{AllocError, Global};

/// The number of a literal, in which its inverse has the other last bit.
pub fn code_of(lit: Lit) -> u32 {
    lit.variable.wrapping_mul(2) | u32::from(lit.inverted)
}

/// The literal of a number.
pub fn lit_of(code: u32) -> Lit {
    Lit {
        variable: code / 2,
        inverted: code % 2 == 1,
    }
}

/// A clause on the list of a literal.
#[derive(Clone, Copy)]
pub struct Watch {
    /// Where its copy stands.
    pub from: u32,
    /// The number of a literal of it: while it is true the clause need not be looked at.
    pub blocker: u32,
}

/// What a clause comes to when a literal that it is watched at became false.
#[derive(Clone, Copy)]
pub enum Turn {
    /// The literal of this number is true.
    Satisfied(u32),
    /// It is watched at the second literal now in place of the false one, and at the first one still.
    Moved(u32, u32),
    /// All literals but this one of the clause at this place are false.
    Last(u32, u32),
    /// It is watched no more.
    Gone,
}

/// How many words stand before the literals of a copy: the place of the clause, how many literals there are, none where it
/// was deleted, and where among them one that is not false is looked for first.
const HEAD: usize = 3;

/// The first place of a part of a clause with a literal that is not false.
fn open_place(trail: &Trail, lits: &[u32], from: usize, to: usize) -> Option<usize>
    requires { to ≤ length lits.now }
    ensures { IfSome result (λ at. at < to) }
{
    for at in from..to {
        if !trail.has_number((lits[at] ^ 1) as usize) {
            return Some(at);
        }
    }
    None
}

/// The place of a literal that is not false behind the first two.
///
/// It is looked for from where one was found last, whose place the false one took: those before were false then, and mostly
/// are so still, and each look from the front would pass over them all (Gent 2013).
fn next_place(trail: &Trail, lits: &[u32], next: usize) -> Option<usize>
    ensures { IfSome result (λ at. at < length lits.now) }
{
    let from = next.min(lits.len());
    match open_place(trail, lits, from, lits.len()) {
        Some(at) => Some(at),
        None => open_place(trail, lits, 2, from),
    }
}

/// What a clause comes to when one of its first two literals became false. Another one that is not false takes its place.
fn turn_among(trail: &Trail, head: &mut [u32], lits: &mut [u32], off: u32) -> Turn
    requires head { 3 ≤ length head.old }
    requires lits { 2 ≤ length lits.old }
{
    // One of the first two is the false one. Which is hard to foresee, so no branch asks for it.
    let other = lits[0] ^ lits[1] ^ off;
    lits[0] = other;
    lits[1] = off;
    if trail.has_number(other as usize) {
        return Turn::Satisfied(other);
    }
    let Some(at) = next_place(trail, lits, head[2] as usize) else {
        return Turn::Last(other, head[0]);
    };
    let found = lits[at];
    lits[at] = off;
    lits[1] = found;
    if at < u32::MAX as usize {
        head[2] = at as u32;
    }
    Turn::Moved(other, found)
}

/// The number of a literal of the clause beside these two.
fn third_of(lits: &[Lit], first: u32, second: u32) -> Option<u32> {
    for lit in lits {
        let code = code_of(*lit);
        if code != first && code != second {
            return Some(code);
        }
    }
    None
}

/// How many words the copy that begins at this word takes; none where it was deleted.
fn count_at(words: &[u32], from: u32) -> usize
    ensures { result < 2 ^ 33 }
{
    match words.get(from as usize + 1) {
        Some(0) | None => 0,
        Some(count) => *count as usize + HEAD,
    }
}

/// Puts the places of a list's clauses where it says where their copies stand.
fn name_places(list: &mut Vec<Watch>, words: &[u32]) {
    for watch in list {
        let is_live = count_at(words, watch.from) > 0;
        watch.from = match words.get(watch.from as usize) {
            Some(place) if is_live => *place,
            _ => NOWHERE,
        };
    }
}

/// Puts there where the copies stand.
fn name_copies(list: &mut Vec<Watch>, copies: &[u32]) {
    for watch in list {
        watch.from = match copies.get(watch.from as usize) {
            Some(from) => *from,
            None => NOWHERE,
        };
    }
}

/// The lists, by literal, and copies of the clauses.
///
/// The literals of a copy stand as numbers, behind its head, in an order that changes with what the clause is watched at: so
/// a look at a clause that goes to another list is a look at few words that stand together.
#[derive(Drop)]
pub struct Watches {
    /// The clauses of two or three literals.
    pub shorts: Shorts,
    alloc: Global,
    lists: Vec<Vec<Watch>>,
    words: Vec<u32>,
    // By place, where the copy of a clause stands, as far as clauses have one.
    copies: Vec<u32>,
    // How many words stand in copies of clauses that were deleted.
    dead: usize,
    // How many lists the formula has.
    count: usize,
}

impl Watches {
    /// No clause is watched.
    pub fn new(alloc: Global) -> Self {
        Watches {
            shorts: Shorts::new(alloc),
            alloc,
            lists: Vec::new(alloc),
            words: Vec::new(alloc),
            copies: Vec::new(alloc),
            dead: 0,
            count: 0,
        }
    }

    /// No clause of a formula of so many variables is watched.
    pub fn reset(&mut self, variables: u32) {
        self.words.clear();
        self.copies.clear();
        self.dead = 0;
        let count = 2 * (variables as usize + 1);
        for list in self.lists.iter_mut().take(self.count) {
            list.clear();
        }
        self.count = count;
        self.shorts.reset(count);
    }

    /// Makes room for the list of a literal.
    fn reach(&mut self, index: usize) -> Result<(), AllocError> {
        'more: while self.lists.len() <= index {
            self.lists.push(Vec::new(self.alloc))?;
        }
        Ok(())
    }

    /// The clause at a place is watched at these two of its literals.
    pub fn add(
        &mut self,
        place: usize,
        lits: &[Lit],
        first: Lit,
        second: Lit,
    ) -> Result<(), AllocError> {
        let from = self.words.len();
        let most = u32::MAX as usize;
        if place >= most || from >= most || lits.len() >= most {
            return Ok(());
        }
        let (first, second) = (code_of(first), code_of(second));
        if lits.len() <= 3 {
            let third = third_of(lits, first, second);
            return self.shorts.add(place as u32, first, second, third);
        }
        let from = from as u32;
        self.words
            .extend_from_slice(&[place as u32, 0, 2, first, second])?;
        self.copy(lits, first, second)?;
        self.close_copy(from);
        self.set_copy(place as u32, from)?;
        self.watch_at(from, first, second)
    }

    /// Writes down where the copy of a clause stands.
    fn set_copy(&mut self, place: u32, from: u32) -> Result<(), AllocError> {
        let place = place as usize;
        if place >= self.copies.len() {
            self.copies.resize(place + 1, NOWHERE)?;
        }
        self.copies[place] = from;
        Ok(())
    }

    /// Copies the literals of a clause but these two.
    fn copy(&mut self, lits: &[Lit], first: u32, second: u32) -> Result<(), AllocError> {
        for lit in lits {
            let code = code_of(*lit);
            if code != first && code != second {
                self.words.push(code)?;
            }
        }
        Ok(())
    }

    /// Writes down how many literals the last copy has.
    fn close_copy(&mut self, from: u32) {
        let head = from as usize + 1;
        let end = self.words.len();
        if head < end && end - head > HEAD - 1 && end - head <= u32::MAX as usize {
            self.words[head] = (end - head - (HEAD - 1)) as u32;
        }
    }

    /// Puts a clause on a list.
    pub fn put(&mut self, lit: u32, watch: Watch) -> Result<(), AllocError> {
        let index = lit as usize;
        if index >= self.count {
            return Ok(());
        }
        self.reach(index)?;
        if index < self.lists.len() {
            self.lists[index].push(watch)?;
        }
        Ok(())
    }

    /// The clause at a place was deleted.
    pub fn remove(&mut self, place: usize) {
        if place >= self.copies.len() {
            return;
        }
        let count = count_at(self.words.as_slice(), self.copies[place]);
        let head = self.copies[place] as usize + 1;
        if count > 0 && head < self.words.len() {
            self.words[head] = 0;
            self.copies[place] = NOWHERE;
            self.dead = self.dead.saturating_add(count);
        }
    }

    /// Moves the copies together, once most words stand in copies of clauses that were deleted.
    pub fn tighten(&mut self) {
        if self.dead <= self.words.len() / 2 {
            return;
        }
        self.dead = 0;
        for list in self.lists.iter_mut().take(self.count) {
            name_places(list, self.words.as_slice());
        }
        self.move_copies();
        for list in self.lists.iter_mut().take(self.count) {
            name_copies(list, self.copies.as_slice());
        }
    }

    /// Moves the copies together.
    fn move_copies(&mut self) {
        let mut to = 0;
        for copy in &mut self.copies {
            let from = *copy as usize;
            let count = count_at(self.words.as_slice(), *copy);
            if count == 0 || to > from || from + count > self.words.len() {
                *copy = NOWHERE;
            } else {
                self.words
                    .as_mut_slice()
                    .copy_within(from..from + count, to);
                *copy = to as u32;
                to += count;
            }
        }
        self.words.truncate(to);
    }

    /// Puts a clause on the lists of these two literals.
    fn watch_at(&mut self, from: u32, first: u32, second: u32) -> Result<(), AllocError> {
        self.put(
            first,
            Watch {
                from,
                blocker: second,
            },
        )?;
        self.put(
            second,
            Watch {
                from,
                blocker: first,
            },
        )
    }

    /// What a clause comes to when a literal that it is watched at became false.
    pub fn turn(&mut self, trail: &Trail, from: u32, off: u32) -> Turn {
        let from = from as usize;
        if from >= self.words.len() {
            return Turn::Gone;
        }
        let (_, later) = self.words.as_mut_slice().split_at_mut(from);
        if later.len() < HEAD {
            return Turn::Gone;
        }
        let (head, lits) = later.split_at_mut(HEAD);
        let count = head[1] as usize;
        if count < 2 || count > lits.len() {
            return Turn::Gone;
        }
        let (lits, _) = lits.split_at_mut(count);
        turn_among(trail, head, lits, off)
    }

    /// Takes the list of a literal out.
    pub fn open(&mut self, lit: u32) -> Vec<Watch> {
        let index = lit as usize;
        let empty = Vec::new(self.alloc);
        if index < self.lists.len() {
            return std::mem::replace(&mut self.lists[index], empty);
        }
        empty
    }

    /// Puts it back.
    pub fn close(&mut self, lit: u32, list: Vec<Watch>) {
        let index = lit as usize;
        if index < self.lists.len() {
            self.lists[index] = list;
        }
    }
}
