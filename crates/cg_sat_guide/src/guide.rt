//! What guides the search.
//!
//! No answer rests on it: it proposes what to look at, and each proposal is tried before it is used. So its functions
//! promise nothing but to return.

use crate::merits::Merits;
use crate::order::Order;
use crate::watches::Watches;
use cg_formula::{Formula, Lit};
use std::alloc::{AllocError, Global};

/// No clause.
const NOWHERE: usize = usize::MAX;

/// What guides the search.
#[derive(Drop)]
pub struct Guide {
    /// Which clauses are looked at.
    pub watches: Watches,
    /// Which variables are decided.
    pub order: Order,
    /// Which clauses are of use.
    pub merits: Merits,
    /// How many entries of the trail were followed.
    pub taken: usize,
    /// How many entries stand before the first decision, as far as they have unit clauses.
    pub fixed: usize,
    /// Whether there may be more of them by now.
    pub unsettled: bool,
    // By variable, the place of its unit clause.
    units: Vec<usize>,
}

impl Guide {
    /// For no formula yet.
    pub fn new(alloc: Global) -> Self {
        Guide {
            watches: Watches::new(alloc),
            order: Order::new(alloc),
            merits: Merits::new(alloc),
            taken: 0,
            fixed: 0,
            unsettled: true,
            units: Vec::new(alloc),
        }
    }

    /// For a formula. The buffers stay, and grow again only as far as they are used.
    pub fn reset(&mut self, formula: &Formula) {
        self.watches.reset(formula.variables);
        self.order.reset();
        self.merits.reset(formula.clauses.len());
        self.taken = 0;
        self.fixed = 0;
        self.unsettled = true;
        self.units.clear();
    }

    /// The clause at this place is a unit clause of the literal's variable.
    pub fn set_unit(&mut self, lit: Lit, place: usize) -> Result<(), AllocError> {
        let index = lit.variable as usize;
        if index >= self.units.len() {
            self.units.resize(index + 1, NOWHERE)?;
        }
        self.units[index] = place;
        Ok(())
    }

    /// The place of a unit clause of the literal's variable, if one is known.
    pub fn unit(&self, lit: Lit) -> usize {
        match self.units.get(lit.variable as usize) {
            Some(place) => *place,
            None => NOWHERE,
        }
    }

    /// Whether a unit clause of the literal's variable is known.
    pub fn has_unit(&self, lit: Lit) -> bool {
        self.unit(lit) != NOWHERE
    }

    /// The clause at this place was learnt. It is watched at its first two literals, or is a unit clause.
    pub fn enter(&mut self, place: usize, lits: &[Lit]) -> Result<(), AllocError> {
        self.merits.push()?;
        match lits {
            [] => Ok(()),
            [only] => self.set_unit(*only, place),
            [first, second, ..] => self.watches.add(place, lits, *first, *second),
        }
    }
}
