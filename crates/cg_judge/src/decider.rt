//! What decides the goals of claims.

ghost use Rattle.std.specs.Prelude.{◌≡◌, IsTrue, false, true, length, map, IfOk};
ghost use Rattle.cg_aig.specs.Aig.{aig_ops};
ghost use Rattle.cg_claim.specs.declared.leaf.LeafBit.{LeafBit};
ghost use Rattle.cg_decide.specs.Decision.{IsNeverOne};
ghost use Rattle.cg_judge.specs.Verdict.{IsGoal, IsVerdict, ToldOne};

use crate::verdict::{Proof, Verdict};
use cg_aig::{Aig, AigLit};
use cg_claim::leaf::{Leaf, LeafBit};
use cg_decide::{Decider, Decision};
use cg_list::Seq;
use std::alloc::{AllocError, Global};

/// What decides goals one after another, in buffers that are kept.
#[derive(Drop)]
pub struct ClaimDecider {
    alloc: Global,
    decider: Decider,
}

impl ClaimDecider {
    /// With empty buffers; takes no memory.
    pub fn new(alloc: Global) -> ClaimDecider {
        ClaimDecider {
            alloc,
            decider: Decider::new(alloc),
        }
    }

    /// Whether a goal, a literal of the list, is ever 1. No proof is made, and no bits are answered.
    pub fn is_ever_one(&mut self, aig: &Aig, goal: AigLit) -> Result<bool, AllocError>
        requires { IsTrue (aig_ops.is_valid aig.now goal) }
        ensures { IfOk result (ToldOne aig.now goal) }
    {
        let found = self.decider.find(aig, goal)?;
        Ok(found.is_some())
    }

    /// Whether a goal is ever 1, with bits of its leaves at which it is, or, where that is wanted, with the proof that it never is.
    ///
    /// Which bits these are depends on the list and the goal alone, and not on whether a proof is wanted.
    pub fn decide(
        &mut self,
        aig: &Aig,
        goal: AigLit,
        leaves: &[Leaf],
        proof: bool,
    ) -> Result<Verdict, AllocError>
        requires { IsGoal aig.now goal leaves.now }
        ensures { IfOk result (IsVerdict aig.now goal leaves.now proof) }
    {
        let shown = self.shows_never(aig, goal, proof)?;
        if shown {
            return Ok(Verdict::Never(None));
        }
        match self.decider.decide(aig, goal)? {
            Decision::Never(formula, log) => {
                if !proof {
                    return Ok(Verdict::Never(None));
                }
                Ok(Verdict::Never(Some(Proof { formula, log })))
            }
            Decision::Sometimes(bits) => {
                let bits = leaf_bits(self.alloc, leaves, bits.as_slice())?;
                Ok(Verdict::Sometimes(bits))
            }
        }
    }

    /// Whether a goal needs no search: no proof is wanted, and it is seen at once that it is never 1.
    fn shows_never(&mut self, aig: &Aig, goal: AigLit, proof: bool) -> Result<bool, AllocError>
        requires { IsTrue (aig_ops.is_valid aig.now goal) }
        ensures { IfOk result (λ shown. shown ≡ true → (proof ≡ false) × IsNeverOne aig.now goal) }
    {
        if proof {
            return Ok(false);
        }
        self.decider.shows_never(aig, goal)
    }
}

/// Leaves with their bits.
fn leaf_bits(alloc: Global, leaves: &[Leaf], bits: &[bool]) -> Result<Seq<LeafBit>, AllocError>
    requires { length bits.now ≡ length leaves.now }
    ensures leaves { IfOk result (λ seq. map (λ (b : LeafBit). b.leaf) seq ≡ leaves.now) }
    ensures bits { IfOk result (λ seq. map (λ (b : LeafBit). b.bit) seq ≡ bits.now) }
{
    let mut seq = Seq::new(alloc);
    for (leaf, bit) in leaves.iter().zip(bits) {
        seq.push(LeafBit {
            leaf: *leaf,
            bit: *bit,
        })?;
    }
    Ok(seq)
}
