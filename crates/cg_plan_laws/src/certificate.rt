//! Proofs of the claims of inserted stages.

use cg_claim::name::ClaimName;
use cg_formula::Formula;
use cg_lrat::Log;

/// A claim of an inserted stage, as a formula that nothing satisfies, with the proof of that.
#[derive(Debug, Drop)]
pub struct Certificate {
    /// The number of the stage, counted from 1.
    pub stage: u32,

    /// The claim.
    pub claim: ClaimName,

    /// That some bits violate the claim, as a formula.
    pub formula: Formula,

    /// That nothing satisfies the formula.
    pub log: Log,
}
