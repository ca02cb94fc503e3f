//! Marks on places, of which the next one is found at once.

ghost use Rattle.std.specs.Prelude.{◌≡◌, ◌<◌, ◌*◌, ℕ, Some, true, false, length, slice_get, slice_set, IfOk};
ghost use Rattle.cg_edge.specs.inner.Bits.{IsLowest, IsNext};

use std::alloc::{AllocError, Global};
use std::marker::Model;

/// A mark, or none, at each of so many places: one bit each, so that 64 places without a mark are passed at once.
///
/// Clauses see a truth value for each place.
#[derive(Drop)]
pub(crate) struct Marks {
    words: Vec<u64>,
    count: usize,
    // How many places were looked at the last time, and the time before. Only a guess rests on them.
    last: usize,
    before: usize,
}

impl Model for Marks {
    ghost use Rattle.std.specs.Prelude.{List, Bool};
    ghost use Rattle.cg_edge.specs.inner.Bits.{AreWords, bits_of};

    ghost Value = { List Bool };

    ghost view = { λ m. bits_of m.words.items m.count };

    ghost invariant = { λ m. AreWords m.words.items m.count };
}

impl Marks {
    /// A mark at each of so many places.
    pub(crate) fn all(alloc: Global, count: usize) -> Result<Marks, AllocError>
        ensures long { IfOk result (λ marks. length marks ≡ count) }
        ensures all { IfOk result (λ marks. (p : ℕ) → p < count → slice_get marks p ≡ Some true) }
    {
        let mut marks = Marks {
            words: vec![in alloc; 0; count / 64 + 1]?,
            count,
            last: 0,
            before: count,
        };
        for place in 0..count {
            marks.add(place);
        }
        Ok(marks)
    }

    /// Puts a mark at a place.
    pub(crate) fn add(&mut self, place: usize)
        requires { place < length self.old }
        ensures { self.new ≡ slice_set self.old place true }
    {
        self.words[place / 64] |= 1u64 << (place % 64);
    }

    /// Takes the mark of a place away.
    pub(crate) fn remove(&mut self, place: usize)
        requires { place < length self.old }
        ensures { self.new ≡ slice_set self.old place false }
    {
        self.words[place / 64] &= !(1u64 << (place % 64));
    }

    /// Takes all marks away.
    pub(crate) fn clear(&mut self)
        ensures { length self.new ≡ length self.old }
    {
        self.words.fill(0);
    }

    /// Keeps in mind how many places were looked at this time.
    pub(crate) fn keep_in_mind(&mut self, looks: usize)
        ensures { self.new ≡ self.old }
    {
        self.before = self.last;
        self.last = looks;
    }

    /// Whether more than a quarter of the places were looked at the time before last, when the clock was as it is now.
    pub(crate) fn were_many(&self) -> bool {
        self.before > self.count / 4
    }

    /// The first place from this one on that has a mark.
    pub(crate) fn next(&self, from: usize) -> Option<usize>
        ensures { IsNext self.now from result }
    {
        let first = from / 64;
        if first >= self.words.len() {
            return None;
        }
        match lowest(self.words[first] >> (from % 64)) {
            Some(further) => Some(from + further),
            None => self.next_from(first + 1),
        }
    }

    /// The first place that has a mark, of those whose bits are in this word or behind it.
    fn next_from(&self, word: usize) -> Option<usize>
        ensures { IsNext self.now (64 * word) result }
    {
        for k in word..self.words.len() {
            if let Some(place) = lowest(self.words[k]) {
                return Some(64 * k + place);
            }
        }
        None
    }
}

/// The lowest digit of a word that is 1.
fn lowest(word: u64) -> Option<usize>
    ensures { IsLowest word result }
{
    if word == 0 {
        return None;
    }
    Some(word.trailing_zeros() as usize)
}
