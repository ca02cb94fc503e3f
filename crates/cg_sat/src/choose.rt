//! What is done where nothing follows any more.

ghost use Rattle.std.specs.Prelude.{◌≡◌, ℕ, ◌+◌, ◌<◌, ◌≤◌, true, false, List, length, Some, MatchOption, IfOk, slice_index_or};
ghost use Rattle.std.specs.List.{slice_get, list_any};
ghost use Rattle.std.specs.Option.{IfSome};
ghost use Rattle.cg_formula.specs.declared.formula.Lit.{Lit};
ghost use Rattle.cg_formula.specs.declared.formula.Clause.{Clause};
ghost use Rattle.cg_formula.specs.Bounds.{IsFormula};
ghost use Rattle.cg_formula.specs.Lits.{inverse, is_in};
ghost use Rattle.cg_formula.specs.Satisfiable.{lit_bit, clause_bit, formula_bit};
ghost use Rattle.cg_formula.specs.Assignments.{IsFalsified, IsUnassigned};
ghost use Rattle.cg_sat_state.specs.Trail.{lits_of};
ghost use Rattle.cg_sat.specs.inner.Search.{IsSearch, ShowsBits, FindsOpen, HasPrefix, IsUnsatisfied, IsChoice};

use crate::problem::Problem;
use cg_formula::{Formula, Lit};
use cg_sat_guide::guide::Guide;
use cg_sat_state::clauses::Clauses;
use cg_sat_state::trail::Trail;
use std::alloc::{AllocError, Global};

/// What is done next.
#[derive(Drop)]
pub enum Choice {
    /// The literal is decided.
    Decide(Lit),
    /// The formula is satisfied by these bits.
    Done(Vec<bool>),
    /// The clause at this place is false.
    Refute(usize),
}

/// A literal of the clause that is not false.
pub fn open_lit(trail: &Trail, clause: &[Lit]) -> Option<Lit>
    ensures { FindsOpen (lits_of trail.now) clause.now result }
{
    for lit in clause {
        if !trail.has(lit.inverse()) {
            return Some(*lit);
        }
    }
    None
}

/// The bits of the variables.
fn bits_of(alloc: Global, trail: &Trail, variables: u32) -> Result<Vec<bool>, AllocError>
    ensures long { IfOk result (λ bits. length bits.items ≡ variables) }
    ensures bits { IfOk result (λ bits. ShowsBits (lits_of trail.now) bits.items) }
{
    let mut bits = Vec::new(alloc);
    for variable in 0..variables {
        let lit = Lit {
            variable: variable + 1,
            inverted: false,
        };
        bits.push(trail.has(lit))?;
    }
    Ok(bits)
}

/// Whether the bits make the literal true.
fn bit_of(bits: &[bool], lit: Lit) -> bool
    requires { (0 < lit.variable) × (lit.variable ≤ length bits.now) }
    ensures { result ≡ lit_bit bits.now lit }
{
    bits[lit.variable as usize - 1] != lit.inverted
}

/// Whether the bits satisfy the clause.
fn is_satisfied(bits: &[bool], clause: &[Lit]) -> bool
    requires { (lit : Lit) → is_in lit clause.now ≡ true → (0 < lit.variable) × (lit.variable ≤ length bits.now) }
    ensures { result ≡ list_any (lit_bit bits.now) clause.now }
{
    for lit in clause {
        if bit_of(bits, *lit) {
            return true;
        }
    }
    false
}

/// The first clause that the bits do not satisfy.
fn unsatisfied(formula: &Formula, bits: &[bool]) -> Option<usize>
    requires formula { IsFormula formula.now }
    requires long { length bits.now ≡ formula.now.variables }
    ensures { MatchOption result (formula_bit bits.now formula.now ≡ true) (IsUnsatisfied bits.now formula.now) }
{
    for place in 0..formula.clauses.len() {
        if !is_satisfied(bits, formula.clauses.at(place)) {
            return Some(place);
        }
    }
    None
}

/// What is done where no variable is proposed.
fn last_choice(
    problem: &Problem<'_>,
    trail: &Trail,
    clauses: &Clauses,
) -> Result<Choice, AllocError>
    requires formula { IsFormula problem.now.formula.now }
    requires prefix { HasPrefix problem.now.formula.now clauses.now }
    requires search { IsSearch problem.now.count clauses.now trail.now }
    ensures { IfOk result (IsChoice problem.now.formula.now problem.now.count clauses.now trail.now) }
{
    let _ = clauses;
    let formula = problem.formula;
    let bits = bits_of(problem.alloc, trail, formula.variables)?;
    let Some(place) = unsatisfied(formula, bits.as_slice()) else {
        return Ok(Choice::Done(bits));
    };
    match open_lit(trail, formula.clauses.at(place)) {
        Some(lit) => Ok(Choice::Decide(lit)),
        None => Ok(Choice::Refute(place)),
    }
}

/// The literal that the most active variable without a value is decided by.
fn proposed(trail: &Trail, guide: &mut Guide, count: usize) -> Option<Lit>
    ensures { IfSome result (λ lit. IsUnassigned (lits_of trail.now) lit × (lit.variable < count) × (0 < lit.variable)) }
{
    for _ in 0..count {
        let variable = guide.order.take()?;
        let lit = guide.order.lit(variable);
        if lit.variable > 0
            && (lit.variable as usize) < count
            && !trail.has(lit)
            && !trail.has(lit.inverse())
        {
            return Some(lit);
        }
    }
    None
}

/// What is done where nothing follows.
pub fn choose(
    problem: &Problem<'_>,
    trail: &Trail,
    clauses: &Clauses,
    guide: &mut Guide,
) -> Result<Choice, AllocError>
    requires formula { IsFormula problem.now.formula.now }
    requires prefix { HasPrefix problem.now.formula.now clauses.now }
    requires search { IsSearch problem.now.count clauses.now trail.now }
    ensures { IfOk result (IsChoice problem.now.formula.now problem.now.count clauses.now trail.now) }
{
    // Where each variable has a value, none is looked for.
    if trail.len() < problem.formula.variables as usize {
        guide.order.begin(problem.formula)?;
        if let Some(lit) = proposed(trail, guide, problem.count) {
            return Ok(Choice::Decide(lit));
        }
    }
    last_choice(problem, trail, clauses)
}
