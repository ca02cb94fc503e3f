//! The literals that are true while a step of a log is checked.

ghost use Rattle.std.specs.Prelude.{◌≡◌, [], ◌∷◌, ◌++◌, OnOk, OnErr, IfOk, replicate, false};

use cg_formula::Lit;
use std::alloc::{AllocError, Global};
use std::collections::HashSet;
use std::marker::Model;

/// The literals that were made true, in that order. Contracts see their list.
///
/// A look-up is a step into a table, with two places for each variable of the formula. A log may name variables
/// beyond them, up to 2^31 - 1: their literals are kept as a set of numbers, so that they cost memory only where they
/// are used. Clearing goes back along the trail and undoes mark by mark, so that it costs what was made true since,
/// however large the table and the set once were.
#[derive(Drop)]
pub struct Assignment {
    trail: Vec<Lit>,
    near: Vec<bool>,
    far: HashSet<usize>,
}

impl Model for Assignment {
    ghost use Rattle.std.specs.Prelude.{List};
    ghost use Rattle.cg_formula.specs.declared.formula.Lit.{Lit};
    ghost use Rattle.cg_lrat.specs.inner.Assignment.{Marks};

    ghost Value = { List Lit };

    ghost view = { λ s. s.trail.items };

    ghost invariant = { λ s. Marks s.near.items s.far.keys s.trail.items };
}

impl Assignment {
    ghost use Rattle.cg_formula.specs.Lits.{is_in};

    /// No literal is true. The table is made for these variables.
    pub fn new(alloc: Global, variables: u32) -> Result<Self, AllocError>
        ensures none { IfOk result (λ assignment. assignment ≡ []) }
    {
        let near = unmarked(alloc, 2 * (variables as usize + 1))?;
        Ok(Assignment {
            trail: Vec::new(alloc),
            near,
            far: HashSet::new(alloc),
        })
    }

    /// Whether the literal was made true.
    pub fn has(&self, lit: Lit) -> bool
        ensures { result ≡ is_in lit self.now }
    {
        let number = lit.number();
        match self.near.get(number) {
            Some(mark) => *mark,
            None => self.far.contains(&number),
        }
    }

    /// Makes a literal true. Where memory is wanting nothing changes.
    pub fn make_true(&mut self, lit: Lit) -> Result<(), AllocError>
        ensures added { OnOk result (self.new ≡ self.old ++ lit ∷ []) }
        ensures same { OnErr result (self.new ≡ self.old) }
    {
        self.trail.push(lit)?;
        let number = lit.number();
        if number < self.near.len() {
            self.near[number] = true;
            return Ok(());
        }
        match self.far.insert(number) {
            Ok(_) => Ok(()),
            Err(_) => {
                let _ = self.trail.pop();
                Err(AllocError)
            }
        }
    }

    /// No literal is true any more.
    pub fn clear(&mut self)
        ensures none { self.new ≡ [] }
    {
        'trail: while let Some(lit) = self.trail.pop() {
            let number = lit.number();
            if number < self.near.len() {
                self.near[number] = false;
            } else {
                self.far.remove(&number);
            }
        }
    }
}

/// A table without a mark.
fn unmarked(alloc: Global, places: usize) -> Result<Vec<bool>, AllocError>
    ensures { IfOk result (λ marks. marks.items ≡ replicate places false) }
{
    vec![in alloc; false; places]
}
