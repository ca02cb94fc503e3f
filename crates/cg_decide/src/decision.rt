//! The decision.

ghost use Rattle.std.specs.Prelude.{◌≡◌, ◌≤◌, ◌*◌, ◌^◌, IsTrue, None, true, length, IfOk, OnOk};
ghost use Rattle.std.specs.Option.{IfSome};
ghost use Rattle.cg_aig.specs.Aig.{aig_ops, nodes};
ghost use Rattle.cg_cnf.specs.Clauses.{IsOneAt};
ghost use Rattle.cg_decide.specs.Decision.{IsExact, IsNeverOne, IsProved, IsWritableDecision};

use crate::assumed::Follower;
use crate::exhaustive::{Exhaustive, quads_for};
use crate::patterns::Patterns;
use cg_aig::{Aig, AigLit};
use cg_cnf::formula;
use cg_formula::Formula;
use cg_lrat::Log;
use cg_sat::{Solved, Solver};
use std::alloc::{AllocError, Global};

// How many times 64 random patterns are tried.
const ROUNDS: u32 = 4;

/// Whether a goal is ever 1.
#[derive(Drop)]
pub enum Decision {
    /// It is 0 for all leaf bits. The formula says that it is 1, and the log proves that nothing satisfies it.
    Never(Formula, Log),
    /// It is 1 where the leaves have these bits.
    Sometimes(Vec<bool>),
}

/// What decides goals. It keeps its buffers, so that each decision costs what its list is.
#[derive(Drop)]
pub struct Decider {
    alloc: Global,
    solver: Solver,
    patterns: Patterns,
    follower: Follower,
    exhaustive: Exhaustive,
    // The values of nodes.
    values: Vec<bool>,
}

// Makes the buffer long enough for all nodes.
fn fit(values: &mut Vec<bool>, aig: &Aig) -> Result<(), AllocError>
    ensures { OnOk result (nodes aig.now ≤ length values.new.items) }
{
    let count = 1 + aig.leaves() as usize + aig.ands() as usize;
    'more: while values.len() < count {
        values.push(false)?;
    }
    Ok(())
}

impl Decider {
    /// With empty buffers.
    pub fn new(alloc: Global) -> Self {
        Decider {
            alloc,
            solver: Solver::new(alloc),
            patterns: Patterns::new(alloc),
            follower: Follower::new(alloc),
            exhaustive: Exhaustive::new(alloc),
            values: Vec::new(alloc),
        }
    }

    // Leaf bits under which the goal is 1, if so many rounds of random ones have such.
    fn draw(
        &mut self,
        aig: &Aig,
        goal: AigLit,
        rounds: u32,
    ) -> Result<Option<Vec<bool>>, AllocError>
        requires { IsTrue (aig_ops.is_valid aig.now goal) }
        ensures { IfOk result (λ found. IfSome found (λ bits. IsOneAt aig.now goal bits.items)) }
    {
        'rounds: for _ in 0..rounds {
            if let Some(bits) = self.patterns.draw(aig, goal)? {
                if self.is_one_at(aig, goal, &bits)? {
                    return Ok(Some(bits));
                }
            }
        }
        Ok(None)
    }

    // Whether the goal is 1 under these bits, one for each leaf.
    fn is_one_at(&mut self, aig: &Aig, goal: AigLit, bits: &[bool]) -> Result<bool, AllocError>
        requires { IsTrue (aig_ops.is_valid aig.now goal) }
        ensures { IfOk result (λ one. one ≡ true → IsOneAt aig.now goal bits.now) }
    {
        fit(&mut self.values, aig)?;
        if bits.len() != aig.leaves() as usize {
            return Ok(false);
        }
        Ok(aig.value(goal, bits, self.values.as_mut_slice()))
    }

    /// Whether it is seen without a search that the goal is never 1. It may be so unseen.
    pub fn shows_never(&mut self, aig: &Aig, goal: AigLit) -> Result<bool, AllocError>
        requires { IsTrue (aig_ops.is_valid aig.now goal) }
        ensures { IfOk result (λ never. never ≡ true → IsNeverOne aig.now goal) }
    {
        let shown = self.follower.shows_never(aig, goal)?;
        if shown {
            return Ok(true);
        }
        match quads_for(aig) {
            Some(count) => match self.exhaustive.find(aig, goal, count)? {
                None => Ok(true),
                Some(_) => Ok(false),
            },
            None => Ok(false),
        }
    }

    /// Leaf bits at which the goal, a literal of the list, is 1, and none where it is never 1: what [`Decider::decide`] says,
    /// without formula and log. Where there are several such bits, it may be others.
    pub fn find(&mut self, aig: &Aig, goal: AigLit) -> Result<Option<Vec<bool>>, AllocError>
        requires { IsTrue (aig_ops.is_valid aig.now goal) }
        ensures never { IfOk result (λ found. found ≡ None → IsNeverOne aig.now goal) }
        ensures sometimes { IfOk result (λ found. IfSome found (λ bits. IsOneAt aig.now goal bits.items)) }
    {
        self.patterns.restart();
        if let Some(bits) = self.draw(aig, goal, 1)? {
            return Ok(Some(bits));
        }
        let shown = self.follower.shows_never(aig, goal)?;
        if shown {
            return Ok(None);
        }
        match quads_for(aig) {
            Some(count) => self.find_among_all(aig, goal, count),
            None => self.find_by_search(aig, goal),
        }
    }

    // As `find`, where all leaf bits are of so many quads.
    fn find_among_all(
        &mut self,
        aig: &Aig,
        goal: AigLit,
        count: u64,
    ) -> Result<Option<Vec<bool>>, AllocError>
        requires goal { IsTrue (aig_ops.is_valid aig.now goal) }
        requires few { count ≤ 4096 }
        requires leaves { aig.now.number ≤ 20 }
        requires all { 2 ^ aig.now.number ≤ 256 * count }
        ensures never { IfOk result (λ found. found ≡ None → IsNeverOne aig.now goal) }
        ensures sometimes { IfOk result (λ found. IfSome found (λ bits. IsOneAt aig.now goal bits.items)) }
    {
        match self.exhaustive.find(aig, goal, count)? {
            None => Ok(None),
            Some(bits) => {
                if self.is_one_at(aig, goal, &bits)? {
                    Ok(Some(bits))
                } else {
                    self.find_by_search(aig, goal)
                }
            }
        }
    }

    // As `find`, by more random bits and then by a search.
    fn find_by_search(&mut self, aig: &Aig, goal: AigLit) -> Result<Option<Vec<bool>>, AllocError>
        requires { IsTrue (aig_ops.is_valid aig.now goal) }
        ensures never { IfOk result (λ found. found ≡ None → IsNeverOne aig.now goal) }
        ensures sometimes { IfOk result (λ found. IfSome found (λ bits. IsOneAt aig.now goal bits.items)) }
    {
        if let Some(bits) = self.draw(aig, goal, ROUNDS - 1)? {
            return Ok(Some(bits));
        }
        match self.search(aig, goal)? {
            Decision::Never(_, _) => Ok(None),
            Decision::Sometimes(bits) => Ok(Some(bits)),
        }
    }

    /// Whether the goal, a literal of the list, is ever 1.
    pub fn decide(&mut self, aig: &Aig, goal: AigLit) -> Result<Decision, AllocError>
        requires { IsTrue (aig_ops.is_valid aig.now goal) }
        ensures exactly { IfOk result (IsExact aig.now goal) }
        ensures proved { IfOk result (IsProved aig.now goal) }
        ensures writable { IfOk result IsWritableDecision }
    {
        self.patterns.restart();
        if let Some(bits) = self.draw(aig, goal, ROUNDS)? {
            return Ok(Decision::Sometimes(bits));
        }
        self.search(aig, goal)
    }

    // Whether the goal is ever 1, by a search.
    fn search(&mut self, aig: &Aig, goal: AigLit) -> Result<Decision, AllocError>
        requires { IsTrue (aig_ops.is_valid aig.now goal) }
        ensures exactly { IfOk result (IsExact aig.now goal) }
        ensures proved { IfOk result (IsProved aig.now goal) }
        ensures writable { IfOk result IsWritableDecision }
    {
        let formula = formula(self.alloc, aig, goal)?;
        match self.solver.solve(&formula)? {
            Solved::Sat(mut bits) => {
                bits.truncate(aig.leaves() as usize);
                Ok(Decision::Sometimes(bits))
            }
            Solved::Unsat(log) => Ok(Decision::Never(formula, log)),
        }
    }
}

/// Whether the goal, a literal of the list, is ever 1.
///
/// It makes a [`Decider`] and uses it once.
pub fn decide(alloc: Global, aig: &Aig, goal: AigLit) -> Result<Decision, AllocError>
    requires { IsTrue (aig_ops.is_valid aig.now goal) }
    ensures exactly { IfOk result (IsExact aig.now goal) }
    ensures proved { IfOk result (IsProved aig.now goal) }
    ensures writable { IfOk result IsWritableDecision }
{
    let mut decider = Decider::new(alloc);
    decider.decide(aig, goal)
}
