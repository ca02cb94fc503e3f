//! What is decided of the goal of a claim.

use cg_claim::leaf::LeafBit;
use cg_formula::Formula;
use cg_list::Seq;
use cg_lrat::Log;

/// A proof that a goal is never 1.
#[derive(Debug, Drop)]
pub struct Proof {
    /// That the goal is 1, as a formula.
    pub formula: Formula,

    /// That nothing satisfies the formula.
    pub log: Log,
}

/// Whether a goal is ever 1.
#[derive(Debug, Drop)]
pub enum Verdict {
    /// It is 0 at all bits of its leaves. The proof is there where one is wanted.
    Never(Option<Proof>),

    /// It is 1 where its leaves have these bits, one for each leaf in order.
    Sometimes(Seq<LeafBit>),
}
