//! All leaf bits of a list of few leaves, 256 at a time.
//!
//! Those of the last leaves change first: these are registers, whose bits tell most claims that do not hold.

ghost use Rattle.std.specs.Prelude.{◌≡◌, ◌≤◌, ◌<◌, ◌+◌, ◌*◌, ◌^◌, ℕ, None, IsTrue, IfOk, OnOk, length};
ghost use Rattle.std.specs.Option.{IfSome};
ghost use Rattle.cg_aig.specs.Aig.{aig_ops, nodes};
ghost use Rattle.cg_decide.specs.Decision.{IsNeverOne};
ghost use Rattle.cg_decide.specs.inner.Assignments.{AreQuads, IsQuad};

use crate::lanes::{Quad, both, first_one, leaf_quad, literal_quad, zero};
use cg_aig::{Aig, AigLit};
use std::alloc::{AllocError, Global};

/// The most leaves of which all bits are tried.
const MOST_LEAVES: u32 = 14;

/// How many quads hold all assignments of the leaves of a list, where these are few enough to be tried.
pub(crate) fn quads_for(aig: &Aig) -> Option<u64>
    ensures few { IfSome result (λ count. count ≤ 4096) }
    ensures leaves { IfSome result (λ count. aig.now.number ≤ 20) }
    ensures all { IfSome result (λ count. 2 ^ aig.now.number ≤ 256 * count) }
{
    let leaves = aig.leaves();
    if leaves > MOST_LEAVES {
        None
    } else if leaves < 8 {
        Some(1)
    } else {
        Some(1 << (leaves - 8))
    }
}

/// Tries leaf bits, in a buffer that is kept.
#[derive(Drop)]
pub(crate) struct Exhaustive {
    alloc: Global,
    /// The words of each node.
    quads: Vec<Quad>,
}

impl Exhaustive {
    /// With an empty buffer; takes no memory.
    pub fn new(alloc: Global) -> Exhaustive {
        Exhaustive {
            alloc,
            quads: Vec::new(alloc),
        }
    }

    /// Bits of the leaves of a list, which are of so many quads, at which the goal is 1; none where it never is.
    pub fn find(
        &mut self,
        aig: &Aig,
        goal: AigLit,
        count: u64,
    ) -> Result<Option<Vec<bool>>, AllocError>
        requires goal { IsTrue (aig_ops.is_valid aig.now goal) }
        requires few { count ≤ 4096 }
        requires leaves { aig.now.number ≤ 20 }
        requires all { 2 ^ aig.now.number ≤ 256 * count }
        ensures { IfOk result (λ found. found ≡ None → IsNeverOne aig.now goal) }
    {
        for number in 0..count {
            self.lay(aig, number)?;
            if let Some(lane) = first_one(literal_quad(&self.quads, goal.number())) {
                let bits = bits_of(self.alloc, aig.leaves(), 256 * number + lane as u64)?;
                return Ok(Some(bits));
            }
        }
        Ok(None)
    }

    /// Lays the words of all nodes under the assignments of a number.
    fn lay(&mut self, aig: &Aig, number: u64) -> Result<(), AllocError>
        requires number { number < 4096 }
        requires leaves { aig.now.number ≤ 20 }
        ensures nodes { OnOk result (length self.new.quads.items ≡ nodes aig.now) }
        ensures words { OnOk result (AreQuads aig.now number self.new.quads.items) }
    {
        self.quads.clear();
        self.quads.push(zero())?;
        let leaves = aig.leaves();
        for leaf in 0..leaves {
            self.quads.push(leaf_quad(leaves - 1 - leaf, number))?;
        }
        self.lay_ands(aig, number)
    }

    /// Lays the words of the and-nodes behind those of the leaves.
    fn lay_ands(&mut self, aig: &Aig, number: u64) -> Result<(), AllocError>
        requires leaves { length self.old.quads.items ≡ 1 + aig.now.number }
        requires words { AreQuads aig.now number self.old.quads.items }
        ensures nodes { OnOk result (length self.new.quads.items ≡ nodes aig.now) }
        ensures words { OnOk result (AreQuads aig.now number self.new.quads.items) }
    {
        for k in 0..aig.ands() {
            let quad = node_quad(aig, k, &self.quads);
            self.quads.push(quad)?;
        }
        Ok(())
    }
}

/// The words of an and-node, by those of all nodes before it.
fn node_quad(aig: &Aig, k: u32, quads: &[Quad]) -> Quad
    requires node { k < length aig.now.pairs }
    requires earlier { length quads.now ≡ 1 + aig.now.number + k }
    ensures { (number : ℕ) → AreQuads aig.now number quads.now → IsQuad aig.now (2 * (1 + aig.now.number + k)) number result }
{
    let _leaves = aig.leaves();
    let (a, b) = aig.pair(k);
    both(
        literal_quad(quads, a.number()),
        literal_quad(quads, b.number()),
    )
}

/// The bits of leaves under the assignment of a number.
fn bits_of(alloc: Global, leaves: u32, number: u64) -> Result<Vec<bool>, AllocError>
    requires { leaves ≤ 20 }
{
    let mut bits = Vec::new(alloc);
    for leaf in 0..leaves {
        bits.push((number >> (leaves - 1 - leaf)) % 2 == 1)?;
    }
    Ok(bits)
}
