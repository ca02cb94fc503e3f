//! The trail: the literals that are true, in the order in which they became so.

ghost use Rattle.std.specs.Prelude.{◌≡◌, ℕ, List, true, false, slice_index_or, ◌<◌, [], ◌∷◌, ◌++◌, length, MatchOption, OnOk, OnErr};
ghost use Rattle.cg_formula.specs.declared.formula.Lit.{Lit};
ghost use Rattle.cg_formula.specs.Lits.{is_in, lit_number};
ghost use Rattle.cg_sat_state.specs.Trail.{lits_of};
ghost use Rattle.cg_sat_state.specs.declared.trail.Entry.{Entry};

use cg_formula::Lit;
use std::alloc::{AllocError, Global};
use std::marker::Model;

/// A literal that was made true.
#[derive(Clone, Copy)]
pub struct Entry {
    /// The literal.
    pub lit: Lit,
    /// The place of the clause that was unit, or none where it was decided. It has 32 bits, so that an entry takes 16 bytes.
    pub reason: Option<u32>,
}

/// The literals that are true, and a table of them by number, so that it is known at once whether one is. Contracts see
/// the entries.
#[derive(Drop)]
pub struct Trail {
    entries: Vec<Entry>,
    // Whether the literal of each number is true.
    trues: Vec<bool>,
}

impl Model for Trail {
    ghost use Rattle.std.specs.Prelude.{List};
    ghost use Rattle.cg_sat_state.specs.declared.trail.Entry.{Entry};
    ghost use Rattle.cg_sat_state.specs.inner.Assignment.{IsAssignmentOf};

    ghost Value = { List Entry };

    ghost view = { λ s. s.entries.items };

    ghost invariant = { λ s. IsAssignmentOf s.trues.items s.entries.items };
}

impl Trail {
    /// No literal is true.
    pub fn new(alloc: Global) -> Self
        ensures { result ≡ [] }
    {
        Trail {
            entries: Vec::new(alloc),
            trues: Vec::new(alloc),
        }
    }

    /// The entries, the first one first.
    pub fn entries(&self) -> &[Entry]
        ensures { result.now ≡ self.now }
    {
        self.entries.as_slice()
    }

    /// How many literals are true.
    pub fn len(&self) -> usize
        ensures { result ≡ length self.now }
    {
        self.entries.len()
    }

    /// Whether the literal is true.
    pub fn has(&self, lit: Lit) -> bool
        ensures { result ≡ is_in lit (lits_of self.now) }
    {
        self.has_number(lit.number())
    }

    /// Whether the literal of this number is true.
    pub fn has_number(&self, number: usize) -> bool
        ensures { (lit : Lit) → lit_number lit ≡ number → result ≡ is_in lit (lits_of self.now) }
    {
        match self.trues.get(number) {
            Some(mark) => *mark,
            None => false,
        }
    }

    /// Makes a literal true. Where memory is wanting nothing changes.
    pub fn push(&mut self, entry: Entry) -> Result<(), AllocError>
        ensures added { OnOk result (self.new ≡ self.old ++ entry ∷ []) }
        ensures same { OnErr result (self.new ≡ self.old) }
    {
        let place = entry.lit.number();
        reach(&mut self.trues, place)?;
        self.entries.push(entry)?;
        self.trues[place] = true;
        Ok(())
    }

    /// No literal is true any more. The buffers stay.
    pub fn clear(&mut self)
        ensures { self.new ≡ [] }
    {
        unmark(&mut self.trues, self.entries.as_slice());
        self.entries.clear();
    }

    /// Takes the last entry back, if there is one. Its literal, which stands nowhere before it, is not true any more.
    pub fn pop(&mut self) -> Option<Entry>
        requires { (front : List Entry) (entry : Entry) → self.old ≡ front ++ entry ∷ [] → is_in entry.lit (lits_of front) ≡ false }
        ensures { MatchOption result ((self.old ≡ []) × (self.new ≡ [])) (λ entry. self.old ≡ self.new ++ entry ∷ []) }
    {
        let entry = self.entries.pop()?;
        let place = entry.lit.number();
        if place < self.trues.len() {
            self.trues[place] = false;
        }
        Some(entry)
    }
}

/// Makes the table long enough for a place.
fn reach(trues: &mut Vec<bool>, place: usize) -> Result<(), AllocError>
    ensures long { OnOk result (place < length trues.new.items) }
    ensures same { (at : ℕ) → slice_index_or trues.new.items at false ≡ slice_index_or trues.old.items at false }
{
    'more: while trues.len() <= place {
        trues.push(false)?;
    }
    Ok(())
}

/// Takes the marks of entries away.
fn unmark(trues: &mut Vec<bool>, entries: &[Entry])
    ensures off { (lit : Lit) → is_in lit (lits_of entries.now) ≡ true → slice_index_or trues.new.items (lit_number lit) false ≡ false }
    ensures fewer { (at : ℕ) → slice_index_or trues.old.items at false ≡ false → slice_index_or trues.new.items at false ≡ false }
{
    for entry in entries {
        let place = entry.lit.number();
        if place < trues.len() {
            trues[place] = false;
        }
    }
}
