//! What nodes are where a literal is 1.
//!
//! The goal of a claim is mostly the `and` of a literal and of a difference that vanishes where the literal is 1. So each
//! node is followed to a constant or to an earlier node that it is equal to there. Goals that this shows to be 0 need no
//! search.

ghost use Rattle.std.specs.Prelude.{◌≡◌, ◌<◌, ◌*◌, ◌/◌, true, length, IsTrue, IfOk, OnOk};
ghost use Rattle.cg_aig.specs.Aig.{aig_ops, inverse, nodes, simple};
ghost use Rattle.cg_decide.specs.Decision.{IsNeverOne};
ghost use Rattle.cg_decide.specs.inner.Assumed.{Agree, Excludes, IsSameThere, followed};

use cg_aig::{Aig, AigLit};
use std::alloc::{AllocError, Global};

/// Follows the nodes of lists, in a buffer that is kept.
#[derive(Drop)]
pub(crate) struct Follower {
    /// For each node a literal that is equal to it where the assumed literal is 1.
    same: Vec<u32>,
}

impl Follower {
    /// With an empty buffer; takes no memory.
    pub fn new(alloc: Global) -> Follower {
        Follower {
            same: Vec::new(alloc),
        }
    }

    /// Whether it is seen at once that a goal is never 1: one operand is 0 where the other is 1.
    pub fn shows_never(&mut self, aig: &Aig, goal: AigLit) -> Result<bool, AllocError>
        requires { IsTrue (aig_ops.is_valid aig.now goal) }
        ensures { IfOk result (λ never. never ≡ true → IsNeverOne aig.now goal) }
    {
        let first = 1 + aig.leaves();
        let number = goal.number();
        if number % 2 == 1 || number / 2 < first {
            return Ok(false);
        }
        let (a, b) = aig.pair(number / 2 - first);
        if self.excludes(aig, a.number(), b.number())? {
            return Ok(true);
        }
        self.excludes(aig, b.number(), a.number())
    }

    /// Whether it is seen that a literal is 0 wherever the assumed one is 1.
    fn excludes(&mut self, aig: &Aig, assumed: u32, other: u32) -> Result<bool, AllocError>
        requires other { other < 2 * nodes aig.now }
        ensures { IfOk result (λ excluded. excluded ≡ true → Excludes aig.now assumed other) }
    {
        self.follow_all(aig, assumed)?;
        Ok(follow(&self.same, other) == 0)
    }

    /// Follows all nodes.
    fn follow_all(&mut self, aig: &Aig, assumed: u32) -> Result<(), AllocError>
        ensures all { OnOk result (length self.new.same.items ≡ nodes aig.now) }
        ensures same { OnOk result (Agree aig.now assumed self.new.same.items) }
    {
        self.same.clear();
        let count = 1 + aig.leaves() + aig.ands();
        for node in 0..count {
            let literal = same_literal(aig, assumed, node, &self.same);
            self.same.push(literal)?;
        }
        Ok(())
    }
}

/// A literal that is equal to a node where the assumed one is 1, those of all earlier nodes being known.
fn same_literal(aig: &Aig, assumed: u32, node: u32, same: &[u32]) -> u32
    requires node { node < nodes aig.now }
    requires earlier { length same.now ≡ node }
    requires same { Agree aig.now assumed same.now }
    ensures { IsSameThere aig.now assumed node result }
{
    let first = 1 + aig.leaves();
    if assumed / 2 == node {
        return 1 - assumed % 2;
    }
    if node < first {
        return 2 * node;
    }
    let (a, b) = aig.pair(node - first);
    match simple(follow(same, a.number()), follow(same, b.number())) {
        Some(literal) => literal,
        None => 2 * node,
    }
}

/// What a literal is equal to, where this is known of the nodes.
fn follow(same: &[u32], literal: u32) -> u32
    requires { literal / 2 < length same.now }
    ensures { result ≡ followed same.now literal }
{
    let number = same[(literal / 2) as usize];
    if literal % 2 == 0 {
        number
    } else {
        inverse(number)
    }
}

/// The inverse of a literal.
fn inverse(literal: u32) -> u32
    ensures { result ≡ inverse literal }
{
    if literal % 2 == 0 {
        literal + 1
    } else {
        literal - 1
    }
}

/// What the `and` of two literals is that needs no node.
fn simple(a: u32, b: u32) -> Option<u32>
    ensures { result ≡ simple a b }
{
    let inverse = inverse(b);
    if a == 0 || b == 0 || a == inverse {
        Some(0)
    } else if a == 1 {
        Some(b)
    } else if b == 1 || a == b {
        Some(a)
    } else {
        None
    }
}
