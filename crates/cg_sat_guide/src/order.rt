//! In which order variables are decided, and with which sign.
//!
//! Nothing of an answer rests on it: it only proposes.

use cg_formula::{Formula, Lit};
use std::alloc::{AllocError, Global};

/// No place in the heap.
const NOWHERE: u32 = u32::MAX;

/// Whether a formula ends with a unit clause, as that of a claim ends with its goal: what the goal rests on stands before it, and
/// is decided from there.
fn has_goal(formula: &Formula) -> bool {
    let count = formula.clauses.len();
    count > 0 && formula.clauses.at(count - 1).len() == 1
}

/// A heap of variables by activity, with the sign that each had last.
#[derive(Drop)]
pub struct Order {
    heap: Vec<u32>,
    slots: Vec<u32>,
    activities: Vec<f64>,
    phases: Vec<bool>,
    step: f64,
    // Whether variables are decided: not before the first decision, and not once the formula is refuted.
    is_used: bool,
}

impl Order {
    /// No variable.
    pub fn new(alloc: Global) -> Self {
        Order {
            heap: Vec::new(alloc),
            slots: Vec::new(alloc),
            activities: Vec::new(alloc),
            phases: Vec::new(alloc),
            step: 1.0,
            is_used: false,
        }
    }

    /// No variable any more.
    pub fn reset(&mut self) {
        self.heap.clear();
        self.slots.clear();
        self.activities.clear();
        self.phases.clear();
        self.step = 1.0;
        self.is_used = false;
    }

    /// The variables of a formula, before the first of them is decided.
    pub fn begin(&mut self, formula: &Formula) -> Result<(), AllocError> {
        if self.is_used {
            return Ok(());
        }
        self.is_used = true;
        self.fill(formula.variables)?;
        if !has_goal(formula) {
            self.weigh(formula);
        }
        Ok(())
    }

    /// So many variables, each as active as the others. The last stands first: a formula of a claim has its goal at its end, and
    /// what the goal rests on is decided from there, so that leaves that it does not need are left alone.
    fn fill(&mut self, variables: u32) -> Result<(), AllocError> {
        self.push(NOWHERE)?;
        for variable in 0..variables {
            self.push(variables - 1 - variable)?;
            self.heap.push(variables - variable)?;
        }
        Ok(())
    }

    /// The variables of most clauses stand first, the last of equal ones before the others: their values tell most.
    fn weigh(&mut self, formula: &Formula) {
        for place in 0..formula.clauses.len() {
            for lit in formula.clauses.at(place) {
                self.count(lit.variable);
            }
        }
        for slot in 0..self.heap.len() {
            self.rise(slot);
        }
    }

    /// The variable stands in one more clause.
    fn count(&mut self, variable: u32) {
        let index = variable as usize;
        if index < self.activities.len() {
            self.activities[index] += 1.0;
        }
    }

    /// One more variable, which stands at this slot of the heap.
    fn push(&mut self, slot: u32) -> Result<(), AllocError> {
        self.slots.push(slot)?;
        self.activities.push(0.0)?;
        self.phases.push(true)?;
        Ok(())
    }

    fn activity(&self, variable: u32) -> f64 {
        match self.activities.get(variable as usize) {
            Some(activity) => *activity,
            None => 0.0,
        }
    }

    fn at(&self, slot: usize) -> u32 {
        match self.heap.get(slot) {
            Some(variable) => *variable,
            None => 0,
        }
    }

    fn place(&mut self, slot: usize, variable: u32) {
        if slot < self.heap.len() {
            self.heap[slot] = variable;
        }
        let index = variable as usize;
        if index < self.slots.len() && slot < NOWHERE as usize {
            self.slots[index] = slot as u32;
        }
    }

    fn rise(&mut self, from: usize) {
        let variable = self.at(from);
        let activity = self.activity(variable);
        let mut slot = from;
        for _ in 0..64 {
            if slot == 0 {
                break;
            }
            let above = (slot - 1) / 2;
            let other = self.at(above);
            if self.activity(other) >= activity {
                break;
            }
            self.place(slot, other);
            slot = above;
        }
        self.place(slot, variable);
    }

    fn sink(&mut self) {
        let variable = self.at(0);
        let activity = self.activity(variable);
        let mut slot = 0;
        for _ in 0..64 {
            if slot >= self.heap.len() / 2 {
                break;
            }
            let mut below = 2 * slot + 1;
            if below + 1 < self.heap.len()
                && self.activity(self.at(below + 1)) > self.activity(self.at(below))
            {
                below += 1;
            }
            let other = self.at(below);
            if activity >= self.activity(other) {
                break;
            }
            self.place(slot, other);
            slot = below;
        }
        self.place(slot, variable);
    }

    /// The variable may be decided again.
    pub fn put(&mut self, variable: u32) -> Result<(), AllocError> {
        if let Some(slot) = self.slots.get(variable as usize) {
            if *slot == NOWHERE {
                let end = self.heap.len();
                self.heap.push(variable)?;
                self.place(end, variable);
                self.rise(end);
            }
        }
        Ok(())
    }

    /// The most active variable.
    pub fn take(&mut self) -> Option<u32> {
        let last = self.heap.pop()?;
        if self.heap.is_empty() {
            self.forget(last);
            return Some(last);
        }
        let top = self.at(0);
        self.forget(top);
        self.place(0, last);
        self.sink();
        Some(top)
    }

    fn forget(&mut self, variable: u32) {
        let index = variable as usize;
        if index < self.slots.len() {
            self.slots[index] = NOWHERE;
        }
    }

    /// No variable is decided any more, so that no order of them is needed.
    pub fn end(&mut self) {
        self.is_used = false;
    }

    /// The variable took part in a conflict.
    pub fn bump(&mut self, variable: u32) {
        if !self.is_used {
            return;
        }
        let index = variable as usize;
        if index < self.activities.len() {
            let activity = self.activities[index] + self.step;
            self.activities[index] = activity;
            if activity > 1e100 {
                self.scale();
            }
        }
        let slot = match self.slots.get(index) {
            Some(slot) => *slot,
            None => NOWHERE,
        };
        if slot != NOWHERE {
            self.rise(slot as usize);
        }
    }

    fn scale(&mut self) {
        for activity in &mut self.activities {
            *activity *= 1e-100;
        }
        self.step *= 1e-100;
    }

    /// A conflict is over.
    pub fn decay(&mut self) {
        self.step /= 0.97;
    }

    /// The literal that the variable is decided by.
    pub fn lit(&self, variable: u32) -> Lit {
        let inverted = match self.phases.get(variable as usize) {
            Some(phase) => *phase,
            None => true,
        };
        Lit { variable, inverted }
    }

    /// The literal was true last.
    pub fn save(&mut self, lit: Lit) {
        let index = lit.variable as usize;
        if index < self.phases.len() {
            self.phases[index] = lit.inverted;
        }
    }
}
