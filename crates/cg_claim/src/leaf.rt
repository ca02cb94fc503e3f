//! The leaves of a claim.

use cg_net::id::{NetId, RegId};

/// What a leaf stands for in its copy of the machine.
#[derive(Clone, Copy, Debug, PartialEq, Eq)]
pub enum LeafSource {
    /// The bit of a data input.
    Input(NetId),

    /// The bit of a register.
    Register(RegId),
}

/// A leaf of a claim: a bit that the claim takes as given.
#[derive(Clone, Copy, Debug, PartialEq, Eq)]
pub struct Leaf {
    /// The copy of the machine: 0 for the first cycle, 1 for the cycle after it, and 2 for that cycle with other bits
    /// in some registers.
    pub copy: u8,

    /// The data input or the register.
    pub source: LeafSource,
}

/// A leaf with a bit.
#[derive(Clone, Copy, Debug, PartialEq, Eq)]
pub struct LeafBit {
    /// The leaf.
    pub leaf: Leaf,

    /// Its bit.
    pub bit: bool,
}
